// The event message: whether there is one, and its bytes.
ghost use Rattle.std.specs.Prelude.{◌≡◌, ◌++◌, ◌+◌, ◌≤◌, ◌<◌, length};
ghost use Rattle.rules.specs.Size.{most_records, most_watches, longest_path, longest_token, events_size, message_size, header_size};
ghost use Rattle.rules.specs.Octets.{nul, paste};
ghost use Rattle.rules.specs.Layout.{watches_of};
ghost use Rattle.rules.specs.Message.{event_message, message_of};
ghost use Rattle.octets.specs.Numbers.{Put};
ghost use Rattle.events.specs.Messages.{SoundWatches, header, due, sent_as, sent_over};

use crate::record::{heard, path, path_length};
use crate::report::{concerns, reported};
use octets::numbers::put_number32;
use octets::parts::copy;
use octets::sizes::{HEADER_SIZE, LEN_AT, LONGEST_PATH, REQ_AT, TX_AT};
use watches::places::{token, used};

const RECORDS: u32 = octets::sizes::RECORDS as u32;

const WATCHES: u32 = octets::sizes::WATCHES as u32;

// The least length of a path.
const SHORTEST_PATH: usize = 1;

// Puts the header of an event message with n bytes of payload.
fn put_header(into: &mut [u8], n: u32)
    requires { header_size ≤ length into.old }
    ensures { into.new ≡ paste 0 (header n) into.old }
{
    put_number32(into, 0, 15);
    put_number32(into, REQ_AT, 0);
    put_number32(into, TX_AT, 0);
    put_number32(into, LEN_AT, n);
}

// Puts a text and a nul behind it, from `at` on, and returns the place behind both.
fn put_string(into: &mut [u8], at: usize, text: &[u8]) -> usize
    requires { at + length text.now < length into.old }
    ensures { Put at (text.now ++ nul) into.old into.new result }
{
    copy(into, at, text);
    let n = text.len();
    into[at + n] = 0;
    at + n + 1
}

// Puts the event message of a reported path and a token, and returns its length.
fn put_message(into: &mut [u8], path: &[u8], token: &[u8]) -> u32
    requires { (length path.now ≤ longest_path) × (length token.now ≤ longest_token) × (length into.old ≡ message_size) }
    ensures { Put 0 (event_message path.now token.now) into.old into.new result }
{
    let n = path.len() + token.len() + 2;
    put_header(into, n as u32);
    let at = put_string(into, HEADER_SIZE, path);
    let end = put_string(into, at, token);
    end as u32
}

// Whether record i has an event message for watch k.
fn due(watches: &[u8], events: &[u8], i: usize, k: u32) -> bool
    requires { (i < most_records) × (k < most_watches) × SoundWatches watches.now × (length events.now ≡ events_size) }
    ensures { result ≡ due watches.now events.now i k }
{
    let at = k as usize;
    if !used(watches, at) {
        return false;
    }
    if !heard(events, i, k) {
        return false;
    }
    let n = path_length(events, i);
    if n < SHORTEST_PATH {
        return false;
    }
    if LONGEST_PATH < n {
        return false;
    }
    concerns(watches, at, path(events, i))
}

// Puts the event message of a record for a watch to the front of a buffer, where there is one, and returns its length.
pub fn message<'a>(
    watches: &'a [u8],
    events: &'a [u8],
    count: u32,
    record: u32,
    watch: u32,
    into: &mut [u8],
) -> Option<u32>
    requires { SoundWatches watches.now × (length events.now ≡ events_size) × (length into.old ≡ message_size) }
    ensures { sent_as result into.new ≡ sent_over into.old
        (message_of (watches_of watches.now) events.now count «record» watch) }
{
    if count <= record {
        return None;
    }
    if RECORDS <= record {
        return None;
    }
    if WATCHES <= watch {
        return None;
    }
    let i = record as usize;
    if !due(watches, events, i, watch) {
        return None;
    }
    let k = watch as usize;
    let p = path(events, i);
    Some(put_message(into, reported(watches, k, p), token(watches, k)))
}
