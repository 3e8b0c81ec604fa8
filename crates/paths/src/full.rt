// The full path of a relative one.
ghost use Rattle.std.specs.Prelude.{◌++◌, ◌+◌, ◌≤◌, length};
ghost use Rattle.octets.specs.Numbers.{Put};
ghost use Rattle.paths.specs.Full.{base_text};

use octets::parts::copy;
use octets::written::put_decimal;

// Puts `/local/domain/N/` and a path to the front of a buffer, and returns how long that is.
pub fn full(into: &mut [u8], domain: u32, s: &[u8]) -> usize
    requires { length s.now + 35 ≤ length into.old }
    ensures { Put 0 (base_text domain ++ s.now) into.old into.new result }
{
    copy(into, 0, b"/local/domain/");
    let at = put_decimal(into, 14, domain as u64);
    into[at] = b'/';
    copy(into, at + 1, s);
    at + 1 + s.len()
}
