// Nodes removed, with all below them.
ghost use Rattle.std.specs.Prelude.{◌≡◌, ◌≤◌, ◌<◌, length, take};
ghost use Rattle.rules.specs.Size.{slots, table_size, deepest};
ghost use Rattle.rules.specs.Node.{node_at, within, removed, without_all};
ghost use Rattle.rules.specs.Layout.{table_of, table_bytes};
ghost use Rattle.slots.specs.Slot.{Canonical};
ghost use Rattle.making.specs.Marks.{Marked, swept};

use octets::sizes::{DEEPEST, SLOTS};
use slots::fields::{parent, used};
use slots::writing::clear_slot;
use std::array;

// The slot above; a free slot lies below the root.
fn above(t: &[u8], i: usize) -> usize
    requires { (i < slots) × (length t.now ≡ table_size) }
    ensures { (result < slots) × (result ≡ (node_at (table_of t.now) i).parent) }
{
    if used(t, i) {
        return parent(t, i);
    }
    0
}

// Whether slot j is slot i or lies below it.
pub fn is_within(t: &[u8], i: usize, j: usize) -> bool
    requires { (j < slots) × (length t.now ≡ table_size) }
    ensures { result ≡ within deepest (table_of t.now) i j }
{
    let mut at = j;
    for _ in 0..DEEPEST {
        if i == at {
            return true;
        }
        if at == 0 {
            return false;
        }
        at = above(t, at);
    }
    i == at
}

// Marks slot i and all below it.
fn marked(t: &[u8], i: usize) -> [bool; SLOTS]
    requires { length t.now ≡ table_size }
    ensures { Marked result (table_of t.now) i }
{
    array::from_fn(|j| is_within(t, i, j))
}

// Frees the marked slots.
fn sweep(t: &mut [u8], marks: &[bool; SLOTS])
    requires { Canonical t.old × (length marks.now ≡ slots) }
    ensures { t.new ≡ table_bytes (swept marks.now (table_of t.old)) }
{
    for (j, marked) in marks.iter().enumerate() {
        if *marked {
            clear_slot(t, j);
        }
    }
}

// Removes slot i and all below it, whoever owns it.
pub fn remove(t: &mut [u8], i: usize)
    requires { Canonical t.old }
    ensures { t.new ≡ table_bytes (removed (table_of t.old) i) }
{
    let marks = marked(t, i);
    sweep(t, &marks);
}

// Removes the first n slots of a list one after the other, each with all below it.
pub fn remove_all(t: &mut [u8], list: &[u8], n: usize)
    requires { Canonical t.old × (n ≤ length list.now) }
    ensures { t.new ≡ table_bytes (without_all (table_of t.old) (take n list.now)) }
{
    for i in &list[..n] {
        remove(t, *i as usize);
    }
}
