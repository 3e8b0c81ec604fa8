// The numbers of a payload.
ghost use Rattle.std.specs.Prelude.{◌≡◌, ◌^◌, ◌<◌};
ghost use Rattle.rules.specs.Octets.{number_in};
ghost use Rattle.rules.specs.Payload.{access_letter};
ghost use Rattle.octets.specs.Options.{meant};

use octets::decimals::number_in;

// The last number that a domain has.
pub const LAST_DOMAIN: u64 = octets::sizes::LAST_DOMAIN as u64;

// The value of a decimal from low to high, which 32 bits hold.
pub fn small(s: &[u8], low: u64, high: u64) -> Option<u32>
    requires { high < 2 ^ 32 }
    ensures { meant result ≡ number_in low high s.now }
{
    Some(number_in(s, low, high)? as u32)
}

// The access that a letter names.
pub fn letter(c: u8) -> Option<u32>
    ensures { meant result ≡ access_letter c }
{
    match c {
        b'n' => Some(0),
        b'r' => Some(1),
        b'w' => Some(2),
        b'b' => Some(3),
        _ => None,
    }
}
