// Nodes made: the names that are left of a path, each below the one before it.
ghost use Rattle.std.specs.Prelude.{◌≡◌, true, ◌≤◌, ◌<◌, length, set};
ghost use Rattle.std.proofs.Math.Option.{some};
ghost use Rattle.rules.specs.Size.{slots, longest_value};
ghost use Rattle.rules.specs.Entries.{lowest, free_count};
ghost use Rattle.rules.specs.Path.{short_names};
ghost use Rattle.rules.specs.Node.{new_node, made};
ghost use Rattle.rules.specs.Layout.{table_of, table_bytes};
ghost use Rattle.slots.specs.Slot.{Canonical, slot_at, is_used};
ghost use Rattle.slots.specs.Written.{RoomForNode};
ghost use Rattle.slots.specs.Left.{left_at};

use crate::free::lowest_free;
use paths::names::name_end;
use slots::writing::put_node;

// Puts a new node into the lowest free slot, and returns that slot.
fn make_one(t: &mut [u8], parent: usize, name: &[u8], value: &[u8], domain: u32) -> usize
    requires { (parent < slots) × Canonical t.old × (is_used (slot_at t.old parent) ≡ true) × RoomForNode (length name.now) (length value.now) domain ×
        (1 ≤ free_count (table_of t.old)) }
    ensures { (result ≡ lowest (table_of t.old)) ×
        (t.new ≡ table_bytes (set (table_of t.old) result
        (some (new_node domain (table_of t.old) parent name.now value.now)))) }
{
    let i = lowest_free(t).unwrap();
    put_node(t, i, parent, name, value, domain);
    i
}

// Makes the names of a full path's text from `at` on, where a name begins, below a slot: parents first, each in the lowest free slot, the value in the last.
pub fn make(t: &mut [u8], slot: usize, path: &[u8], at: usize, domain: u32, value: &[u8])
    requires used { (slot < slots) × Canonical t.old × (is_used (slot_at t.old slot) ≡ true) }
    requires short { short_names (left_at path.now at) ≡ true }
    requires room { length (left_at path.now at) ≤ free_count (table_of t.old) }
    requires sizes { (length value.now ≤ longest_value) × (domain < 65536) }
    ensures { t.new ≡ table_bytes (made (left_at path.now at) slot domain value.now (table_of t.old)) }
{
    let mut parent = slot;
    let mut from = at;
    if path.len() <= at {
        return;
    }
    // A turn goes on behind the name that it made, so the place moves by that name's length.
    loop {
        let end = name_end(path, from);
        if path.len() <= end {
            make_one(t, parent, &path[from..], value, domain);
            return;
        }
        parent = make_one(t, parent, &path[from..end], b"", domain);
        from = end + 1;
    }
}
