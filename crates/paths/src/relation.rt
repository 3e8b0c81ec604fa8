// How two paths lie to each other.
ghost use Rattle.std.specs.Prelude.{◌≡◌, true, [], ◌++◌, ◌∷◌, length};
ghost use Rattle.std.proofs.Math.Option.{map};
ghost use Rattle.rules.specs.Octets.{begins};
ghost use Rattle.rules.specs.Path.{beyond, is_below, is_full, names_in};
ghost use Rattle.octets.specs.Options.{meant};

use crate::names::depth;
use octets::compare::{begins, same};

// What a name below a path begins with.
const SLASH: u8 = b'/';

// Whether a text begins another that goes on with a slash.
fn reaches(above: &[u8], s: &[u8]) -> bool
    ensures { result ≡ begins (above.now ++ (47 ∷ [])) s.now }
{
    let n = above.len();
    if s.len() <= n {
        return false;
    }
    if s[n] != SLASH {
        return false;
    }
    begins(above, s)
}

// Whether a path lies below another: of two texts, whatever they are.
pub fn is_below(above: &[u8], s: &[u8]) -> bool
    ensures { result ≡ is_below above.now s.now }
{
    if same(above, b"/") {
        return 1 < s.len() && begins(above, s);
    }
    reaches(above, s)
}

// How many levels a full path lies below another, if it is at or below it.
pub fn beyond(above: &[u8], s: &[u8]) -> Option<usize>
    requires { (is_full above.now ≡ true) × (is_full s.now ≡ true) }
    ensures { meant result ≡ map length (beyond (names_in above.now) (names_in s.now)) }
{
    if same(above, b"/") {
        return Some(depth(s));
    }
    if same(above, s) {
        return Some(0);
    }
    if reaches(above, s) {
        return Some(depth(&s[above.len()..]));
    }
    None
}
