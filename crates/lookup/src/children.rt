// The children of a slot, in the byte order of their names.
ghost use Rattle.std.specs.Prelude.{◌≡◌, true, ◌∷◌, ◌-◌, ◌≤◌, ◌<◌, length, take, drop};
ghost use Rattle.rules.specs.Size.{slots};
ghost use Rattle.rules.specs.Octets.{paste, less};
ghost use Rattle.rules.specs.Node.{children, has_parent};
ghost use Rattle.rules.specs.Layout.{table_of};
ghost use Rattle.rules.specs.Sound.{sound_table};
ghost use Rattle.slots.specs.Slot.{slot_at};
ghost use Rattle.lookup.specs.Rights.{Asked};
ghost use Rattle.lookup.specs.Children.{AllAsked, Placed, Listed};

use octets::compare::less;
use octets::sizes::SLOTS;
use slots::fields::{name, parent, used};

// Whether slot i is used and has the parent p.
pub fn has_parent(t: &[u8], i: usize, p: usize) -> bool
    requires { (i < slots) × (sound_table t.now ≡ true) }
    ensures { result ≡ has_parent p (slot_at t.now i) }
{
    used(t, i) && parent(t, i) == p
}

// Where slot j goes among the first n slots of a list in the order of names.
fn place(t: &[u8], list: &[u8], n: usize, j: usize) -> usize
    requires { (n ≤ length list.now) × AllAsked t.now (take n list.now) × Asked t.now j }
    ensures { Placed (table_of t.now) j (take n list.now) result }
{
    for (k, other) in list[..n].iter().enumerate() {
        if less(name(t, j), name(t, *other as usize)) {
            return k;
        }
    }
    n
}

// Puts a slot into the place k of a list of n, those from there on moving up.
fn put_in(list: &mut [u8], n: usize, k: usize, j: u8)
    requires { (n < length list.old) × (k ≤ n) }
    ensures { list.new ≡ paste k (j ∷ take (n - k) (drop k list.old)) list.old }
{
    list.copy_within(k..n, k + 1);
    list[k] = j;
}

// The children of slot p, at the front of a list of 128; answers how many they are.
pub fn children(t: &[u8], p: usize, list: &mut [u8]) -> usize
    requires { (sound_table t.now ≡ true) × (length list.old ≡ slots) }
    ensures { Listed t.now p list.new result }
{
    let mut n = 0;
    // A free slot costs one test: `used` goes first, though has_parent asks it again.
    for i in (1..SLOTS).rev() {
        if used(t, i) && has_parent(t, i, p) {
            let k = place(t, &list[..], n, i);
            put_in(list, n, k, (i % 256) as u8);
            n += 1;
        }
    }
    n
}
