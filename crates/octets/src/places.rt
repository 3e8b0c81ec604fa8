// Places of one width in a table.
ghost use Rattle.std.specs.Prelude.{◌≡◌, ◌*◌, ◌<◌, ◌≤◌, length, IfSome, unwrap_or};
ghost use Rattle.octets.specs.Places.{lowest_free};

// The lowest free one of `count` places of `size` bytes. A place is used where the top bit of its first byte is set.
pub fn lowest_free(s: &[u8], size: usize, count: usize) -> Option<usize>
    requires { (1 ≤ size) × (count * size ≤ length s.now) }
    ensures found { unwrap_or result count ≡ lowest_free s.now size count }
    ensures below { IfSome result (λ i. i < count) }
{
    for i in 0..count {
        if s[i * size] < 128 {
            return Some(i);
        }
    }
    None
}
