// An event record in the bytes of all: its mask, its path's length and its path. They are put as the rules say, and read as they stand.
ghost use Rattle.std.specs.Prelude.{◌≡◌, Bool, List, [], ◌∷◌, ◌≤◌, ◌<◌, length};
ghost use Rattle.rules.specs.Size.{most_records, most_watches, events_size, longest_path};
ghost use Rattle.rules.specs.Event.{kept};
ghost use Rattle.rules.specs.Message.{record_at, mask_bit, path_length, path_in};
ghost use Rattle.events.specs.Records.{record_of, Recorded, Room, Mask, number_bit};

use octets::numbers::number;
use octets::parts::{clear, copy};
use octets::sizes::{LONGEST_PATH, MASK_SIZE, RECORD_PATH_AT, RECORD_SIZE};

// The mask that has no watch's bit.
const NO_WATCH: u32 = 0;

// Puts a mask and a path as record n, and gives the place behind it.
pub fn put(events: &mut [u8], n: usize, mask: u32, path: &[u8]) -> usize
    requires { Room events.old n 1 × (length path.now ≤ longest_path) }
    ensures { (m : List Bool) → Mask m mask →
        Recorded n (record_of m path.now ∷ []) events.old events.new result }
{
    let at = n * RECORD_SIZE;
    let size = path.len();
    clear(events, at + RECORD_PATH_AT + size, LONGEST_PATH - size);
    copy(events, at + RECORD_PATH_AT, path);
    events[at] = (mask / 256 % 256) as u8;
    events[at + 1] = (mask % 256) as u8;
    events[at + MASK_SIZE] = (size / 2 % 256) as u8;
    events[at + MASK_SIZE + 1] = (size % 2 * 128) as u8;
    n + 1
}

// The same, if some watch hears it.
pub fn keep(events: &mut [u8], n: usize, mask: u32, path: &[u8]) -> usize
    requires { Room events.old n 1 × (length path.now ≤ longest_path) }
    ensures { (m : List Bool) → Mask m mask → Recorded n (kept m path.now) events.old events.new result }
{
    if mask == NO_WATCH {
        return n;
    }
    put(events, n, mask, path)
}

// Whether a mask has the bit of watch k; that of watch 0 is the highest.
pub fn has_bit(mask: u32, k: usize) -> bool
    requires { k < most_watches }
    ensures { result ≡ number_bit mask k }
{
    (mask >> (15 - k)) % 2 == 1
}

// Whether the mask of record i has the bit of watch k.
pub fn heard(events: &[u8], i: usize, k: u32) -> bool
    requires { (i < most_records) × (k < most_watches) × (length events.now ≡ events_size) }
    ensures { result ≡ mask_bit (record_at events.now i) k }
{
    let mask = number::<2>(events, i * RECORD_SIZE) as u32;
    has_bit(mask, k as usize)
}

// The length of record i's path, as its field has it.
pub fn path_length(events: &[u8], i: usize) -> usize
    requires { (i < most_records) × (length events.now ≡ events_size) }
    ensures { result ≡ path_length (record_at events.now i) }
{
    (number::<2>(events, i * RECORD_SIZE + MASK_SIZE) / 128) as usize
}

// The path of record i, where its length is within the size.
pub fn path(events: &[u8], i: usize) -> &[u8]
    requires { (i < most_records) × (length events.now ≡ events_size) × (path_length (record_at events.now i) ≤ longest_path) }
    ensures { result.now ≡ path_in (record_at events.now i) }
{
    let n = path_length(events, i);
    let from = i * RECORD_SIZE + RECORD_PATH_AT;
    &events[from..from + n]
}
