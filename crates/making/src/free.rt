// Free slots: the lowest, and how many there are.
ghost use Rattle.std.specs.Prelude.{◌≡◌, ◌<◌, length, IfSome, unwrap_or};
ghost use Rattle.rules.specs.Size.{slots, table_size};
ghost use Rattle.rules.specs.Entries.{lowest, free_count};
ghost use Rattle.rules.specs.Layout.{table_of};

use octets::sizes::{SLOT_SIZE, SLOTS};
use slots::fields::used;

// The lowest free slot.
pub fn lowest_free(t: &[u8]) -> Option<usize>
    requires { length t.now ≡ table_size }
    ensures found { unwrap_or result slots ≡ lowest (table_of t.now) }
    ensures below { IfSome result (λ k. k < slots) }
{
    octets::places::lowest_free(t, SLOT_SIZE, SLOTS)
}

pub fn free_count(t: &[u8]) -> usize
    requires { length t.now ≡ table_size }
    ensures { result ≡ free_count (table_of t.now) }
{
    (0..SLOTS).filter(|i| !used(t, *i)).count()
}
