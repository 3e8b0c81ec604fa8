// The whole check of a node table.
ghost use Rattle.std.specs.Prelude.{◌≡◌, ◌+◌, ◌<◌, length};
ghost use Rattle.rules.specs.Size.{slots, table_size};
ghost use Rattle.rules.specs.Node.{node_at};
ghost use Rattle.rules.specs.Layout.{table_of};
ghost use Rattle.rules.specs.Sound.{good_root, sound_table};
ghost use Rattle.soundness.specs.Parts.{Used, good_slot, every};

use crate::chain::all_chained;
use crate::pairs::all_distinct;
use crate::slot::good_slot;
use octets::sizes::{SLOTS, TABLE_SIZE};
use senders::is_control;
use slots::fields::{entry_at, parent};

// Whether every slot is good by itself.
fn all_good(t: &[u8]) -> bool
    requires { length t.now ≡ table_size }
    ensures { result ≡ every (good_slot t.now) slots 0 }
{
    for i in 0..SLOTS {
        if !good_slot(t, i) {
            return false;
        }
    }
    true
}

// Whether slot 0 is its own parent and owned by the control domain.
fn good_root(t: &[u8]) -> bool
    requires { Used t.now 0 }
    ensures { result ≡ good_root (node_at (table_of t.now) 0) }
{
    if parent(t, 0) != 0 {
        return false;
    }
    let owner = entry_at(t, 0, 0);
    is_control(owner.domain)
}

// Whether the bytes are a sound node table.
pub fn sound(t: &[u8]) -> bool
    ensures { result ≡ sound_table t.now }
{
    if t.len() != TABLE_SIZE {
        return false;
    }
    if !all_good(t) {
        return false;
    }
    if !all_chained(t) {
        return false;
    }
    if !good_root(t) {
        return false;
    }
    all_distinct(t)
}
