// Looking up a path.
ghost use Rattle.std.specs.Prelude.{◌≡◌, true, ◌<◌};
ghost use Rattle.rules.specs.Size.{slots};
ghost use Rattle.rules.specs.Path.{is_full};
ghost use Rattle.rules.specs.Node.{is_child, child};
ghost use Rattle.rules.specs.Layout.{table_of};
ghost use Rattle.rules.specs.Sound.{sound_table};
ghost use Rattle.octets.specs.Options.{meant};
ghost use Rattle.slots.specs.Slot.{slot_at};
ghost use Rattle.lookup.specs.Reach.{Reaches};

use crate::children::has_parent;
use octets::compare::same;
use octets::sizes::SLOTS;
use paths::names::name_end;
use slots::fields::{name, used};

#[derive(Clone, Copy, Debug, PartialEq, Eq)]
pub struct Reached {
    pub slot: usize,
    pub at: usize,
}

// Whether slot i is the child of slot p with a name. A free slot costs one test: `used` goes first, though has_parent asks it again.
fn is_child(t: &[u8], i: usize, p: usize, n: &[u8]) -> bool
    requires { (i < slots) × (sound_table t.now ≡ true) }
    ensures { result ≡ is_child p n.now (slot_at t.now i) }
{
    if !used(t, i) {
        return false;
    }
    has_parent(t, i, p) && same(name(t, i), n)
}

// The child of slot p with a name.
pub fn child(t: &[u8], p: usize, n: &[u8]) -> Option<usize>
    requires { sound_table t.now ≡ true }
    ensures { meant result ≡ child (table_of t.now) p n.now }
{
    for i in 0..SLOTS {
        if is_child(t, i, p, n) {
            return Some(i);
        }
    }
    None
}

// How far a full path leads: the last slot that is there, and where in the text the first missing name begins, or its end.
pub fn reach(t: &[u8], path: &[u8]) -> Reached
    requires { (sound_table t.now ≡ true) × (is_full path.now ≡ true) }
    ensures { Reaches t.now path.now result.slot result.at }
{
    let mut slot = 0;
    let mut at = 1;
    // A turn goes on behind the name that it found, so the place moves by that name's length.
    while at < path.len() {
        let end = name_end(path, at);
        let Some(i) = child(t, slot, &path[at..end]) else {
            return Reached { slot, at };
        };
        slot = i;
        at = end + 1;
    }
    Reached { slot, at }
}
