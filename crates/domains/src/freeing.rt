// Places of one width freed by a test.
ghost use Rattle.std.specs.Prelude.{◌≡◌, ◌*◌, ◌+◌, ◌<◌, ◌≤◌, ℕ, Bool, List, length};
ghost use Rattle.std.specs.Borrow.{Bor};
ghost use Rattle.rules.specs.Octets.{Octets};
ghost use Rattle.domains.specs.Freed.{freed_from, Freed};

use octets::parts::clear;

// Frees each of `count` places of `size` bytes that passes a test, the first one first.
pub fn free_where<F: Fn(&[u8], usize) -> bool>(s: &mut [u8], size: usize, count: usize, test: F)
    requires whole { (1 ≤ size) × (length s.old ≡ count * size) }
    requires asked { (x : Bor Octets) (answers : List Bool) → length answers < count →
        x.now ≡ freed_from size 0 answers s.old → F.pre test x (length answers) }
    ensures { Freed size (λ t k b. (x : Bor Octets) × (x.now ≡ t) × F.post test x k b) count s.old s.new }
{
    for k in 0..count {
        if test(s, k) {
            clear(s, k * size, size);
        }
    }
}
