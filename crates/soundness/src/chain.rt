// The chain of parents from a slot to the root, and the path text that it spells.
ghost use Rattle.std.specs.Prelude.{◌≡◌, true, ◌≤◌, ◌<◌, length};
ghost use Rattle.rules.specs.Size.{slots, longest_path, deepest};
ghost use Rattle.rules.specs.Path.{path_text};
ghost use Rattle.rules.specs.Node.{path_of};
ghost use Rattle.rules.specs.Layout.{table_of};
ghost use Rattle.rules.specs.Sound.{sound_table};
ghost use Rattle.octets.specs.Numbers.{Put};
ghost use Rattle.slots.specs.Slot.{slot_at, is_used};
ghost use Rattle.soundness.specs.Parts.{every};
ghost use Rattle.soundness.specs.Walks.{Short, Lent, Walked, chained};

use crate::answer::Way;
use octets::parts::copy;
use octets::sizes::{DEEPEST, SLOTS};
use slots::fields::{name, parent, used};

// The most steps from a slot to the root.
const MOST_STEPS: u8 = DEEPEST as u8;

// Walks from a slot to the root in at most `steps` steps by used slots, and no further than to a slot whose parent's way is known.
#[cycle(walk_walk_up)]
pub fn walk(t: &[u8], i: usize, steps: u8, known: &[u8; SLOTS], into: &mut [u8]) -> Option<Way>
    requires { (i < slots) × (steps ≤ deepest) × Lent t.now known.now into.old }
    ensures { Walked steps t.now i into.old into.new result }
{
    if i == 0 {
        return Some(Way {
            steps: 0,
            length: 0,
        });
    }
    if steps == 0 {
        return None;
    }
    if !used(t, i) {
        return None;
    }
    let above = known[parent(t, i)];
    if above == 0 {
        return walk_up(t, i, steps, known, into);
    }
    if steps < above {
        return None;
    }
    Some(Way {
        steps: above,
        length: 0,
    })
}

// Walks on from the parent of a used slot that is not the root, and puts a slash and the slot's name behind what that leaves in
// the buffer. An empty one stays empty.
#[cycle(walk_walk_up)]
fn walk_up(t: &[u8], i: usize, steps: u8, known: &[u8; SLOTS], into: &mut [u8]) -> Option<Way>
    requires { (0 < i) × (i < slots) × (is_used (slot_at t.now i) ≡ true) × (0 < steps) × (steps ≤ deepest) × Lent t.now known.now into.old }
    ensures { Walked steps t.now i into.old into.new result }
{
    let up = walk(t, parent(t, i), steps - 1, known, into)?;
    let steps = up.steps + 1;
    if into.len() == 0 {
        return Some(Way { steps, length: 0 });
    }
    let s = name(t, i);
    let at = up.length;
    into[at] = b'/';
    copy(into, at + 1, s);
    let length = at + 1 + s.len();
    Some(Way { steps, length })
}

// Puts a used slot's path text at the front of a buffer that takes every path, and gives its length.
pub fn path_of(t: &[u8], i: usize, into: &mut [u8]) -> usize
    requires { (sound_table t.now ≡ true) × (is_used (slot_at t.now i) ≡ true) × (length into.old ≡ longest_path) }
    ensures { Put 0 (path_text (path_of (table_of t.now) i)) into.old into.new result }
{
    if i == 0 {
        into[0] = b'/';
        return 1;
    }
    let nothing = [0u8; SLOTS];
    match walk_up(t, i, MOST_STEPS, &nothing, into) {
        Some(way) => way.length,
        None => 0,
    }
}

// Whether every used slot's chain of parents reaches the root in time.
pub fn all_chained(t: &[u8]) -> bool
    requires { Short t.now }
    ensures { result ≡ every (chained t.now) slots 0 }
{
    let mut known = [0u8; SLOTS];
    for i in 0..SLOTS {
        if used(t, i) {
            let Some(way) = walk(t, i, MOST_STEPS, &known, &mut []) else {
                return false;
            };
            known[i] = way.steps + 1;
        }
    }
    true
}
