// The fields of a slot. They are read as they stand, so that the soundness check can use them too.
ghost use Rattle.std.specs.Prelude.{◌≡◌, true, ◌/◌, ◌%◌, ◌≤◌, ◌<◌, length};
ghost use Rattle.rules.specs.Size.{slots, table_size, longest_name, longest_value, most_entries};
ghost use Rattle.rules.specs.Layout.{table_of};
ghost use Rattle.rules.specs.Node.{node_at};
ghost use Rattle.slots.specs.Slot.{slot_at, is_used, name_length, value_length, entry_count, entry_of};

use octets::numbers::number;
use octets::sizes::{FIELDS_SIZE, NAME_AT, SLOT_SIZE, VALUE_AT};

pub fn used(t: &[u8], i: usize) -> bool
    requires { (i < slots) × (length t.now ≡ table_size) }
    ensures { result ≡ is_used (slot_at t.now i) }
{
    128 <= t[i * SLOT_SIZE]
}

pub fn parent(t: &[u8], i: usize) -> usize
    requires { (i < slots) × (length t.now ≡ table_size) × (is_used (slot_at t.now i) ≡ true) }
    ensures { (result < slots) × (result ≡ (node_at (table_of t.now) i).parent) }
{
    (t[i * SLOT_SIZE] % 128) as usize
}

pub fn name_length(t: &[u8], i: usize) -> usize
    requires { (i < slots) × (length t.now ≡ table_size) }
    ensures { result ≡ name_length t.now i }
{
    (t[i * SLOT_SIZE + 1] / 4) as usize
}

pub fn value_length(t: &[u8], i: usize) -> usize
    requires { (i < slots) × (length t.now ≡ table_size) }
    ensures { result ≡ value_length t.now i }
{
    let high = (t[i * SLOT_SIZE + 1] % 4) as usize;
    let low = (t[i * SLOT_SIZE + 2] / 8) as usize;
    high * 32 + low
}

pub fn entry_count(t: &[u8], i: usize) -> usize
    requires { (i < slots) × (length t.now ≡ table_size) }
    ensures { result ≡ entry_count t.now i }
{
    (t[i * SLOT_SIZE + 2] % 8) as usize
}

// The name, where its length is within the size.
pub fn name(t: &[u8], i: usize) -> &[u8]
    requires { (i < slots) × (length t.now ≡ table_size) × (is_used (slot_at t.now i) ≡ true) × (name_length t.now i ≤ longest_name) }
    ensures { result.now ≡ (node_at (table_of t.now) i).name }
{
    let n = name_length(t, i);
    let from = i * SLOT_SIZE + NAME_AT;
    &t[from..from + n]
}

// The value, where its length is within the size.
pub fn value(t: &[u8], i: usize) -> &[u8]
    requires { (i < slots) × (length t.now ≡ table_size) × (is_used (slot_at t.now i) ≡ true) × (value_length t.now i ≤ longest_value) }
    ensures { result.now ≡ (node_at (table_of t.now) i).value }
{
    let n = value_length(t, i);
    let from = i * SLOT_SIZE + VALUE_AT;
    &t[from..from + n]
}

#[derive(Clone, Copy, Debug, PartialEq, Eq)]
pub struct Entry {
    // A set of two bits, 1 to read and 2 to write, which the rule book has as a number too.
    pub access: u32,
    pub domain: u32,
}

// Entry k, the owner's first: 18 bits that begin 2 * k bits into the three bytes.
pub fn entry_at(t: &[u8], i: usize, k: usize) -> Entry
    requires { (i < slots) × (length t.now ≡ table_size) × (k < most_entries) }
    ensures { (result.access ≡ (entry_of t.now i k).access) × (result.domain ≡ (entry_of t.now i k).domain) }
{
    let bits = number::<3>(t, i * SLOT_SIZE + FIELDS_SIZE + 2 * k) >> (6 - 2 * k);
    Entry {
        access: (bits / 65536 % 4) as u32,
        domain: (bits % 65536) as u32,
    }
}
