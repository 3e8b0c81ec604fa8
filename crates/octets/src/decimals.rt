// Decimals read: plain ones, those within a range, and signed ones.
ghost use Rattle.std.specs.Prelude.{true, ◌≡◌, ◌≤◌, length};
ghost use Rattle.rules.specs.Octets.{all_digits, plain_form, value_from, number_in, signed};
ghost use Rattle.octets.specs.Numbers.{decimal_of, within};
ghost use Rattle.octets.specs.Options.{meant};

use crate::DecimalError;

// The digits of 2^64 - 1.
const MOST_DIGITS: usize = 20;

// Whether every byte of s is a digit.
pub fn all_digits(s: &[u8]) -> bool
    ensures { result ≡ all_digits s.now }
{
    for c in s {
        if !c.is_ascii_digit() {
            return false;
        }
    }
    true
}

// Whether s is digits alone, with no spare leading zero.
pub fn plain_form(s: &[u8]) -> bool
    ensures { result ≡ plain_form s.now }
{
    let len = s.len();
    if len == 0 {
        return false;
    }
    if s[0] == b'0' {
        return len == 1;
    }
    all_digits(s)
}

// The value of up to 19 digits, which 64 bits hold.
fn value(s: &[u8]) -> u64
    requires { (all_digits s.now ≡ true) × (length s.now ≤ 19) }
    ensures { result ≡ value_from 0 s.now }
{
    let mut n: u64 = 0;
    for c in s {
        let digit = *c - b'0';
        n = n * 10 + digit as u64;
    }
    n
}

// The value of a decimal of any length. One of more than 20 digits is too large, so only the last of 20 can take it past 64 bits.
pub fn decimal(s: &[u8]) -> Result<u64, DecimalError>
    ensures { result ≡ decimal_of s.now }
{
    if !plain_form(s) {
        return Err(DecimalError::Malformed);
    }
    let len = s.len();
    if MOST_DIGITS < len {
        return Err(DecimalError::TooLarge);
    }
    let last = len - 1;
    let front = value(&s[..last]);
    let digit = s[last] - b'0';
    let unit = digit as u64;
    if (u64::MAX - unit) / 10 < front {
        return Err(DecimalError::TooLarge);
    }
    Ok(front * 10 + unit)
}

// n, if it is from low to high.
fn within(n: u64, low: u64, high: u64) -> Option<u64>
    ensures { meant result ≡ within low high n }
{
    if low <= n && n <= high { Some(n) } else { None }
}

// The value of a decimal from low to high.
pub fn number_in(s: &[u8], low: u64, high: u64) -> Option<u64>
    ensures { meant result ≡ number_in low high s.now }
{
    match decimal(s) {
        Ok(n) => within(n, low, high),
        Err(_) => None,
    }
}

// The value of a signed decimal of 64 bits, in two's complement.
pub fn signed(s: &[u8]) -> Option<u64>
    ensures { meant result ≡ signed s.now }
{
    let len = s.len();
    if len == 0 {
        return None;
    }
    if s[0] != b'-' {
        return number_in(s, 0, i64::MAX as u64);
    }
    let n = number_in(&s[1..], 1, 9223372036854775808)?;
    Some(u64::MAX - n + 1)
}
