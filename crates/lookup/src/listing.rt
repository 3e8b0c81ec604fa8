// What DIRECTORY and GET_PERMS answer of a node.
ghost use Rattle.std.specs.Prelude.{◌≡◌, ◌+◌, ◌≤◌, ◌<◌, length, take};
ghost use mathlib.Core.List.{◌∷◌, flat_map};
ghost use Rattle.rules.specs.Size.{slots};
ghost use Rattle.rules.specs.Node.{node_at};
ghost use Rattle.rules.specs.Answer.{name_list, access_text, entry_text};
ghost use Rattle.rules.specs.Layout.{table_of};
ghost use Rattle.octets.specs.Numbers.{Put};
ghost use Rattle.lookup.specs.Rights.{Asked};
ghost use Rattle.lookup.specs.Children.{AllAsked};

use octets::parts::copy;
use octets::written::put_decimal;
use slots::fields::{entry_at, entry_count, name, name_length};

// How long the names of n slots are, each with a nul.
pub fn names_length(t: &[u8], list: &[u8], n: usize) -> usize
    requires { (n < slots) × (n ≤ length list.now) × AllAsked t.now (take n list.now) }
    ensures { result ≡ length (name_list (table_of t.now) (take n list.now)) }
{
    let mut sum = 0;
    for i in &list[..n] {
        sum += name_length(t, *i as usize) + 1;
    }
    sum
}

// Writes the names of n slots, each with a nul, from a place of a buffer on; answers the place behind them.
pub fn put_names(t: &[u8], list: &[u8], n: usize, into: &mut [u8], at: usize) -> usize
    requires { (n ≤ length list.now) × AllAsked t.now (take n list.now) ×
        (at + length (name_list (table_of t.now) (take n list.now)) ≤ length into.old) }
    ensures { Put at (name_list (table_of t.now) (take n list.now)) into.old into.new result }
{
    let mut to = at;
    for i in &list[..n] {
        let text = name(t, *i as usize);
        copy(into, to, text);
        to += text.len();
        into[to] = 0;
        to += 1;
    }
    to
}

// The letter of an access.
fn letter(access: u32) -> u8
    requires { access < 4 }
    ensures { result ≡ access_text access }
{
    b"nrwb"[access as usize]
}

// Writes an entry: its letter, its domain id and a nul.
fn put_entry(into: &mut [u8], at: usize, access: u32, domain: u32) -> usize
    requires { (access < 4) × (domain < 65536) × (at + 22 ≤ length into.old) }
    ensures { Put at (entry_text (record { access = access; domain = domain })) into.old into.new result }
{
    into[at] = letter(access);
    let to = put_decimal(into, at + 1, domain as u64);
    into[to] = 0;
    to + 1
}

// Writes a node's entries, the owner's first, from a place of a buffer on; answers the place behind them.
pub fn put_entries(t: &[u8], i: usize, into: &mut [u8], at: usize) -> usize
    requires { Asked t.now i × (at + 64 ≤ length into.old) }
    ensures { Put at (flat_map entry_text ((node_at (table_of t.now) i).owner ∷ (node_at (table_of t.now) i).others))
        into.old into.new result }
{
    let count = entry_count(t, i);
    let mut to = at;
    for k in 0..count {
        let e = entry_at(t, i, k);
        to = put_entry(into, to, e.access, e.domain);
    }
    to
}
