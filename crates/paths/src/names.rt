// The names of a full path's text.
ghost use Rattle.std.specs.Prelude.{◌≡◌, true, ◌≤◌, ◌<◌, length};
ghost use Rattle.rules.specs.Path.{fits, is_full, names_in, short_names};
ghost use Rattle.paths.specs.Names.{name_end, Above};

use octets::sizes::{DEEPEST, LONGEST_NAME};

// The index of the first slash from an index on, or the length.
pub fn name_end(s: &[u8], at: usize) -> usize
    requires { at ≤ length s.now }
    ensures { result ≡ name_end s.now at }
{
    match s[at..].iter().position(|b| *b == b'/') {
        Some(n) => at + n,
        None => s.len(),
    }
}

// How many names a full path has: its slashes, unless it is the root.
pub fn depth(s: &[u8]) -> usize
    requires { is_full s.now ≡ true }
    ensures { result ≡ length (names_in s.now) }
{
    if s.len() == 1 {
        return 0;
    }
    let mut levels: usize = 0;
    // With `filter` and `count` a byte takes twice the instructions or more.
    for b in s {
        if *b == b'/' {
            levels += 1;
        }
    }
    levels
}

// The index behind the path that lies k levels above a full path, below the root.
pub fn above(s: &[u8], k: usize) -> usize
    requires { (is_full s.now ≡ true) × (k < length (names_in s.now)) }
    ensures { Above s.now k result }
{
    let mut at = 0;
    for _ in 0..depth(s) - k {
        at = name_end(s, at + 1);
    }
    at
}

// Whether each name of a full path is within its size.
fn short_names(s: &[u8]) -> bool
    requires { is_full s.now ≡ true }
    ensures { result ≡ short_names (names_in s.now) }
{
    s[1..]
        .split(|b| *b == b'/')
        .all(|name| name.len() <= LONGEST_NAME)
}

// Whether a full path is within the sizes of names and depth.
pub fn fits(s: &[u8]) -> bool
    requires { is_full s.now ≡ true }
    ensures { result ≡ fits (names_in s.now) }
{
    depth(s) <= DEEPEST && short_names(s)
}
