// Numbers written in decimal.
ghost use Rattle.std.specs.Prelude.{◌≡◌, ◌+◌, ◌≤◌, length};
ghost use Rattle.rules.specs.Octets.{decimal};
ghost use Rattle.octets.specs.Numbers.{Put};

// How many digits n has.
pub fn digits(n: u64) -> usize
    ensures { result ≡ length (decimal n) }
{
    let mut count: usize = 1;
    let mut left = n;
    // The turns go by what is left of n, which no range tells.
    while 10 <= left {
        left = left / 10;
        count += 1;
    }
    count
}

// Puts n in decimal into the buffer, from `at` on, and returns the place behind it.
pub fn put_decimal(into: &mut [u8], at: usize, n: u64) -> usize
    requires { at + 20 ≤ length into.old }
    ensures { Put at (decimal n) into.old into.new result }
{
    let count = digits(n);
    let mut left = n;
    for i in (0..count).rev() {
        into[at + i] = b'0' + (left % 10) as u8;
        left = left / 10;
    }
    at + count
}
