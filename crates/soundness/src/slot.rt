// A slot by itself: its lengths, its padding and its name.
ghost use Rattle.std.specs.Prelude.{◌≡◌, true, ◌+◌, ◌≤◌, ◌<◌, length, drop};
ghost use Rattle.rules.specs.Size.{slots, table_size, longest_name};
ghost use Rattle.rules.specs.Path.{name_byte, is_name};
ghost use Rattle.soundness.specs.Parts.{Used, sized, zero_behind, half_name, small_letters, kept_name, name_kept, good_slot};

use crate::entries::kept_entries;
use octets::compare::{all_zero, rest_zero};
use octets::sizes::{LONGEST_NAME, LONGEST_VALUE, MOST_ENTRIES, NAME_AT, SLOT_SIZE, VALUE_AT};
use slots::fields::{entry_count, name_length, used, value_length};

const HALF_NAME: usize = LONGEST_NAME / 2;

// Whether the lengths and the count are within the sizes.
fn within(t: &[u8], i: usize) -> bool
    requires { (i < slots) × (length t.now ≡ table_size) }
    ensures { result ≡ sized t.now i }
{
    if LONGEST_NAME < name_length(t, i) {
        return false;
    }
    if LONGEST_VALUE < value_length(t, i) {
        return false;
    }
    let count = entry_count(t, i);
    if count == 0 {
        return false;
    }
    count <= MOST_ENTRIES
}

// Whether what stands behind the value is zero.
fn zero_behind(t: &[u8], i: usize) -> bool
    requires { (i < slots) × (length t.now ≡ table_size) × (sized t.now i ≡ true) }
    ensures { result ≡ zero_behind t.now i }
{
    rest_zero(
        t,
        i * SLOT_SIZE + VALUE_AT,
        value_length(t, i),
        LONGEST_VALUE,
    )
}

// Whether a byte may stand in a name, by its value: most are small letters. A `matches!` of the ranges is slower by two fifths on long names.
fn name_byte(b: u8) -> bool
    ensures { result ≡ name_byte b }
{
    if b'a' <= b {
        return b <= b'z';
    }
    if b'A' <= b {
        return (b <= b'Z') | (b == b'_');
    }
    if b'0' <= b {
        return (b <= b'9') | (b == b'@');
    }
    b == b'-'
}

// Whether a text is a name: not empty, and of a name's bytes.
fn is_name(s: &[u8]) -> bool
    ensures { result ≡ is_name s.now }
{
    for b in s {
        if !name_byte(*b) {
            return false;
        }
    }
    s.len() != 0
}

// Whether each byte is a small letter, or 0 where its last is 0. A byte's last is the greatest that may stand in its place.
// Every byte is looked at, with one test at the end.
fn small_letters(s: &[u8], last: &[u8]) -> bool
    ensures { result ≡ small_letters s.now last.now }
{
    let mut all = true;
    for (b, z) in s.iter().zip(last) {
        all &= (*b <= *z) & ((b'a' <= *b) | (*z == 0));
    }
    all
}

// Whether n bytes in the first half of a name's field are a name, with zeros behind it. Most names are of small letters.
fn short_name(t: &[u8], at: usize, n: usize) -> bool
    requires { (n ≤ half_name) × (at + longest_name ≤ length t.now) }
    ensures { result ≡ kept_name t.now at n }
{
    if n == 0 {
        return false;
    }
    if !all_zero(&t[at + HALF_NAME..at + LONGEST_NAME]) {
        return false;
    }
    let last = b"zzzzzzzzzzzzzzzz\0\0\0\0\0\0\0\0\0\0\0\0\0\0\0\0";
    if small_letters(&t[at..at + HALF_NAME], &last[HALF_NAME - n..]) {
        return true;
    }
    if !all_zero(&t[at + n..at + n + HALF_NAME]) {
        return false;
    }
    is_name(&t[at..at + n])
}

// Whether n bytes in a name's field are a name, with zeros behind it.
fn kept_name(t: &[u8], at: usize, n: usize) -> bool
    requires { (n ≤ longest_name) × (at + longest_name ≤ length t.now) }
    ensures { result ≡ kept_name t.now at n }
{
    if n <= HALF_NAME {
        return short_name(t, at, n);
    }
    if !all_zero(&t[at + n..at + LONGEST_NAME]) {
        return false;
    }
    is_name(&t[at..at + n])
}

// Whether the name of a slot is good, with zeros behind it: the root alone has none.
fn good_name(t: &[u8], i: usize) -> bool
    requires { Used t.now i × (sized t.now i ≡ true) }
    ensures { result ≡ name_kept t.now i }
{
    let at = i * SLOT_SIZE + NAME_AT;
    let n = name_length(t, i);
    if i != 0 {
        return kept_name(t, at, n);
    }
    if n != 0 {
        return false;
    }
    all_zero(&t[at..at + LONGEST_NAME])
}

fn good_used(t: &[u8], i: usize) -> bool
    requires { Used t.now i }
    ensures { result ≡ good_slot t.now i }
{
    if !within(t, i) {
        return false;
    }
    if !kept_entries(t, i) {
        return false;
    }
    if !zero_behind(t, i) {
        return false;
    }
    good_name(t, i)
}

// Whether a slot is good by itself: its bytes are those of what they mean.
pub fn good_slot(t: &[u8], i: usize) -> bool
    requires { (i < slots) × (length t.now ≡ table_size) }
    ensures { result ≡ good_slot t.now i }
{
    if used(t, i) {
        return good_used(t, i);
    }
    if i == 0 {
        return false;
    }
    let from = i * SLOT_SIZE;
    all_zero(&t[from..from + SLOT_SIZE])
}
