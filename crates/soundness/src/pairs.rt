// Siblings with one name. Each used slot has a key, which those siblings share, so that names are compared only where keys agree.
ghost use Rattle.std.specs.Prelude.{◌≡◌, true, ◌+◌, ◌≤◌, ◌<◌, length};
ghost use Rattle.rules.specs.Size.{slots, longest_name};
ghost use Rattle.rules.specs.Octets.{same};
ghost use Rattle.rules.specs.Node.{node_at};
ghost use Rattle.rules.specs.Layout.{table_of};
ghost use Rattle.rules.specs.Sound.{distinct};
ghost use Rattle.slots.specs.Slot.{slot_at, is_used};
ghost use Rattle.soundness.specs.Keys.{digest_of, has_key, key_of, may_clash, place_of};
ghost use Rattle.soundness.specs.Walks.{Short};

use octets::compare::same;
use octets::sizes::SLOTS;
use slots::fields::{name, parent, used};

// A number below 256 from a name's first byte, its last two and its length.
fn digest(s: &[u8]) -> usize
    requires { length s.now ≤ longest_name }
    ensures { (result ≡ digest_of s.now) × (result < 256) }
{
    let n = s.len();
    if n == 0 {
        return 0;
    }
    let first = s[0] as usize;
    if n == 1 {
        return first % 256;
    }
    let last = s[n - 1] as usize;
    let second = s[n - 2] as usize;
    ((first + last) * 8 + second + n) % 256
}

// The key of a slot, 0 if it is unused.
fn key_of(t: &[u8], i: usize) -> u16
    requires { (i < slots) × Short t.now }
    ensures { result ≡ key_of (slot_at t.now i) }
{
    if !used(t, i) {
        return 0;
    }
    let p = parent(t, i);
    (32768 + p * 256 + digest(name(t, i))) as u16
}

// A place for a key, one of 1,024.
fn place_of(key: u16) -> usize
    ensures { (result ≡ place_of key) × (result < 1024) }
{
    key as usize * 847 / 64 % 1024
}

// Whether a key is among some. Every one is looked at, with one test at the end.
fn has_key(keys: &[u16; SLOTS], key: u16) -> bool
    requires { length keys.now ≡ slots }
    ensures { result ≡ has_key key keys.now }
{
    let mut found = false;
    for k in keys {
        found |= *k == key;
    }
    found
}

// Whether a slot's key may be that of a slot before it, by their places first and then by their keys.
fn may_clash(taken: &[u8; 1024], keys: &[u16; SLOTS], place: usize, key: u16) -> bool
    requires { (place < 1024) × (length keys.now ≡ slots) }
    ensures { result ≡ may_clash taken.now keys.now place key }
{
    if key == 0 {
        return false;
    }
    if taken[place] == 0 {
        return false;
    }
    has_key(keys, key)
}

fn same_names(t: &[u8], i: usize, j: usize) -> bool
    requires { (i < slots) × (j < slots) × Short t.now × (is_used (slot_at t.now i) ≡ true) × (is_used (slot_at t.now j) ≡ true) }
    ensures { result ≡ same (node_at (table_of t.now) i).name (node_at (table_of t.now) j).name }
{
    let a = name(t, i);
    let b = name(t, j);
    same(a, b)
}

// Whether no two siblings have one name. A slot is compared with those before it only where one of them has its key, and the look
// ends at the first pair that has one name.
pub fn all_distinct(t: &[u8]) -> bool
    requires { Short t.now }
    ensures { result ≡ distinct (table_of t.now) }
{
    let mut keys = [0u16; SLOTS];
    let mut taken = [0u8; 1024];
    let mut apart = true;
    'pairs: for i in 0..SLOTS {
        let key = key_of(t, i);
        let place = place_of(key);
        if may_clash(&taken, &keys, place, key) {
            for j in 0..i {
                if keys[j] == key {
                    if same_names(t, j, i) {
                        apart = false;
                        break 'pairs;
                    }
                }
            }
        }
        keys[i] = key;
        taken[place] = 1;
    }
    apart
}
