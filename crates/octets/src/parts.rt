// Parts of a buffer: bytes put into it, and bytes cleared.
ghost use Rattle.std.specs.Prelude.{◌≡◌, ◌+◌, ◌≤◌, length, replicate};
ghost use Rattle.rules.specs.Octets.{paste, padded};

// Puts the bytes of `from` into the buffer, from `at` on.
pub fn copy(into: &mut [u8], at: usize, from: &[u8])
    requires { at + length from.now ≤ length into.old }
    ensures { into.new ≡ paste at from.now into.old }
{
    // With `copy_from_slice` here and `fill` below a transaction takes a tenth more instructions than with loops.
    for i in 0..from.len() {
        into[at + i] = from[i];
    }
}

// Puts n zeros into the buffer, from `at` on.
pub fn clear(into: &mut [u8], at: usize, n: usize)
    requires { at + n ≤ length into.old }
    ensures { into.new ≡ paste at (replicate n 0) into.old }
{
    for i in 0..n {
        into[at + i] = 0;
    }
}

// Puts a text into the `size` bytes from `at` on, with zeros behind it.
pub fn put_text(into: &mut [u8], at: usize, text: &[u8], size: usize)
    requires { (at + size ≤ length into.old) × (length text.now ≤ size) }
    ensures { into.new ≡ paste at (padded size text.now) into.old }
{
    let n = text.len();
    clear(into, at + n, size - n);
    copy(into, at, text);
}
