// Slots written: each part of a slot, and what a request changes in one.
ghost use Rattle.std.specs.Prelude.{◌≡◌, true, cond, ◌∷◌, ℕ, get_or, ◌+◌, ◌*◌, ◌/◌, ◌≤◌, ◌<◌, length, set};
ghost use Rattle.std.proofs.Math.Option.{none, some};
ghost use Rattle.rules.specs.Size.{slots, slot_size, fields_size, entries_size, longest_value, most_entries};
ghost use Rattle.rules.specs.Octets.{paste, big_endian};
ghost use Rattle.rules.specs.Domain.{is_control};
ghost use Rattle.rules.specs.Layout.{table_of, table_bytes};
ghost use Rattle.rules.specs.Node.{node_at, heir, new_node, with_value, with_entries};
ghost use Rattle.slots.specs.Slot.{Canonical, slot_at, is_used};
ghost use Rattle.slots.specs.Written.{fields_of, entries_of, entry_number, entries_bytes, entry_in, others_in, Given, RoomForNode};

use crate::fields::{entry_at, entry_count, name_length, parent, value_length};
use octets::parts::{clear, put_text};
use octets::sizes::{FIELDS_SIZE, LONGEST_NAME, LONGEST_VALUE, NAME_AT, SLOT_SIZE, VALUE_AT};
use senders::is_control;
use std::array;

// Frees slot i.
pub fn clear_slot(t: &mut [u8], i: usize)
    requires { (i < slots) × Canonical t.old }
    ensures { t.new ≡ table_bytes (set (table_of t.old) i none) }
{
    clear(t, i * SLOT_SIZE, SLOT_SIZE);
}

// Puts the first fields of a used slot.
fn put_fields(t: &mut [u8], at: usize, parent: usize, name: usize, value: usize, entries: usize)
    requires { (at + fields_size ≤ length t.old) × (parent < 128) × (name < 64) × (value < 128) × (entries < 8) }
    ensures { t.new ≡ paste at (big_endian fields_size (fields_of parent name value entries)) t.old }
{
    t[at] = (128 + parent) as u8;
    t[at + 1] = (name * 4 + value / 32) as u8;
    t[at + 2] = (value % 32 * 8 + entries) as u8;
}

// Puts the entries of 18 bits that an array has.
fn put_four(t: &mut [u8], at: usize, numbers: [u32; 4])
    requires { (at + entries_size ≤ length t.old) × ((k : ℕ) → k < most_entries → get_or numbers k 0 < 262144) }
    ensures { t.new ≡ paste at (big_endian entries_size (entries_of
        (get_or numbers 0 0) (get_or numbers 1 0) (get_or numbers 2 0) (get_or numbers 3 0))) t.old }
{
    let [a, b, c, d] = numbers;
    t[at] = (a / 1024) as u8;
    t[at + 1] = (a / 4 % 256) as u8;
    t[at + 2] = (a % 4 * 64 + b / 4096) as u8;
    t[at + 3] = (b / 16 % 256) as u8;
    t[at + 4] = (b % 16 * 16 + c / 16384) as u8;
    t[at + 5] = (c / 64 % 256) as u8;
    t[at + 6] = (c % 64 * 4 + d / 65536) as u8;
    t[at + 7] = (d / 256 % 256) as u8;
    t[at + 8] = (d % 256) as u8;
}

// Gives slot i another value.
pub fn put_value(t: &mut [u8], i: usize, v: &[u8])
    requires { (i < slots) × Canonical t.old × (is_used (slot_at t.old i) ≡ true) × (length v.now ≤ longest_value) }
    ensures { t.new ≡ table_bytes (with_value (table_of t.old) i v.now) }
{
    let above = parent(t, i);
    let name = name_length(t, i);
    let entries = entry_count(t, i);
    let at = i * SLOT_SIZE;
    put_text(t, at + VALUE_AT, v, LONGEST_VALUE);
    put_fields(t, at, above, name, v.len(), entries);
}

// The 18 bits of entry k of slot i, 0 where it has none.
fn entry_number(t: &[u8], i: usize, k: usize) -> u32
    requires { (i < slots) × Canonical t.now × (is_used (slot_at t.now i) ≡ true) × (k < most_entries) }
    ensures { (result ≡ entry_number ((node_at (table_of t.now) i).owner ∷ (node_at (table_of t.now) i).others) k) × (result < 262144) }
{
    if k < entry_count(t, i) {
        let e = entry_at(t, i, k);
        return e.access * 65536 + e.domain;
    }
    0
}

// The 18 bits of entry k of `count` that are given, 0 where it is none of them.
fn given_number(access: &[u32], domain: &[u32], count: usize, k: usize) -> u32
    requires { Given count access.now domain.now × (k < most_entries) }
    ensures { (result ≡ entry_number (entry_in access.now domain.now 0 ∷ others_in count access.now domain.now)
        k) × (result < 262144) }
{
    if k < count {
        return access[k] * 65536 + domain[k];
    }
    0
}

// The owner's 18 bits for an heir: the domain is its owner, unless it is the control domain.
fn inherited(number: u32, domain: u32) -> u32
    requires { (number < 262144) × (domain < 65536) }
    ensures { (result ≡ cond (is_control domain) number (number / 65536 * 65536 + domain)) × (result < 262144) }
{
    if is_control(domain) {
        return number;
    }
    number / 65536 * 65536 + domain
}

// The 18 bits of entry k of an heir of slot `parent`, 0 where it has none.
fn heir_number(t: &[u8], parent: usize, domain: u32, k: usize) -> u32
    requires { (parent < slots) × Canonical t.now × (is_used (slot_at t.now parent) ≡ true) × (domain < 65536) × (k < most_entries) }
    ensures { (result ≡ entry_number (heir domain (node_at (table_of t.now) parent).owner ∷ (node_at (table_of t.now) parent).others) k) × (result < 262144) }
{
    let number = entry_number(t, parent, k);
    if k == 0 {
        return inherited(number, domain);
    }
    number
}

// Puts the entries of `parent` into slot i, with the domain as owner unless it is the control domain.
fn put_heirs(t: &mut [u8], i: usize, parent: usize, domain: u32)
    requires { (i < slots) × (parent < slots) × Canonical t.old × (is_used (slot_at t.old parent) ≡ true) × (domain < 65536) }
    ensures { t.new ≡ paste (i * slot_size + fields_size)
        (entries_bytes (heir domain (node_at (table_of t.old) parent).owner) (node_at (table_of t.old) parent).others) t.old }
{
    let numbers = array::from_fn(|k| heir_number(t, parent, domain, k));
    put_four(t, i * SLOT_SIZE + FIELDS_SIZE, numbers);
}

// Puts given entries.
fn put_given(t: &mut [u8], at: usize, count: usize, access: &[u32], domain: &[u32])
    requires { (at + entries_size ≤ length t.old) × Given count access.now domain.now }
    ensures { t.new ≡ paste at (entries_bytes (entry_in access.now domain.now 0)
        (others_in count access.now domain.now)) t.old }
{
    put_four(
        t,
        at,
        array::from_fn(|k| given_number(access, domain, count, k)),
    );
}

// Gives slot i other permission entries: the first `count` of two arrays, the owner's first.
pub fn put_entries(t: &mut [u8], i: usize, count: usize, access: &[u32], domain: &[u32])
    requires { (i < slots) × Canonical t.old × (is_used (slot_at t.old i) ≡ true) × Given count access.now domain.now }
    ensures { t.new ≡ table_bytes (with_entries (table_of t.old) i (entry_in access.now domain.now 0)
        (others_in count access.now domain.now)) }
{
    let above = parent(t, i);
    let name = name_length(t, i);
    let value = value_length(t, i);
    let at = i * SLOT_SIZE;
    put_given(t, at + FIELDS_SIZE, count, access, domain);
    put_fields(t, at, above, name, value, count);
}

// Puts a new node into slot i, a child of slot `parent`: its parent's entries, with the domain as owner unless it is the control domain.
pub fn put_node(t: &mut [u8], i: usize, parent: usize, name: &[u8], value: &[u8], domain: u32)
    requires { (i < slots) × (parent < slots) × Canonical t.old × (is_used (slot_at t.old parent) ≡ true) ×
        RoomForNode (length name.now) (length value.now) domain }
    ensures { t.new ≡ table_bytes (set (table_of t.old) i
        (some (new_node domain (table_of t.old) parent name.now value.now))) }
{
    let entries = entry_count(t, parent);
    let at = i * SLOT_SIZE;
    put_heirs(t, i, parent, domain);
    put_text(t, at + NAME_AT, name, LONGEST_NAME);
    put_text(t, at + VALUE_AT, value, LONGEST_VALUE);
    put_fields(t, at, parent, name.len(), value.len(), entries);
}
