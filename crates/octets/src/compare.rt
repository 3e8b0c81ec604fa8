// Comparisons of byte strings.
ghost use Rattle.std.specs.Prelude.{◌≡◌, ◌+◌, ◌≤◌, length};
ghost use Rattle.rules.specs.Octets.{same, less, begins, all_zero};
ghost use Rattle.octets.specs.Numbers.{rest_zero};

// Whether a and b are the same bytes. Every byte is looked at, with one test at the end; with `==` there would be no gathering for an edit to alter.
pub fn same(a: &[u8], b: &[u8]) -> bool
    ensures { result ≡ same a.now b.now }
{
    if a.len() != b.len() {
        return false;
    }
    let mut differ: u8 = 0;
    for i in 0..a.len() {
        differ = differ | (a[i] ^ b[i]);
    }
    differ == 0
}

// Whether every byte of s is 0. Every byte is looked at, with one test at the end.
pub fn all_zero(s: &[u8]) -> bool
    ensures { result ≡ all_zero s.now }
{
    let mut all: u8 = 0;
    for b in s {
        all = all | *b;
    }
    all == 0
}

// Whether the bytes from n on of the `size` bytes from `at` on are zero. Most texts end in the first half of their field; the bytes are then
// looked at in two pieces of fixed lengths, the second half and as many from the text's end on.
pub fn rest_zero(s: &[u8], at: usize, n: usize, size: usize) -> bool
    requires { (n ≤ size) × (at + size ≤ length s.now) }
    ensures { result ≡ rest_zero s.now at n size }
{
    let half = size / 2;
    if half < n {
        return all_zero(&s[at + n..at + size]);
    }
    if !all_zero(&s[at + half..at + size]) {
        return false;
    }
    all_zero(&s[at + n..at + n + half])
}

// Whether a comes before b in byte order.
pub fn less(a: &[u8], b: &[u8]) -> bool
    ensures { result ≡ less a.now b.now }
{
    // With `<` on the two slices long names take three quarters more instructions.
    for (x, y) in a.iter().zip(b) {
        if *x != *y {
            return *x < *y;
        }
    }
    a.len() < b.len()
}

// Whether a begins b.
#[tactic(auto, using(crate::proofs::Library::begins_with))]
pub fn begins(a: &[u8], b: &[u8]) -> bool
    ensures { result ≡ begins a.now b.now }
{
    b.starts_with(a)
}
