// A payload of up to three strings.
ghost use Rattle.std.specs.Prelude.{◌≡◌, ◌+◌, ◌<◌, length, drop};
ghost use Rattle.rules.specs.Payload.{strings};
ghost use Rattle.payload.specs.Strings.{part, prepended};
ghost use Rattle.payload.specs.Parts.{parts_of};

use crate::cursor::{Cursor, Taken};

// The ends of a payload's strings, where the nul of each stands. The first starts at 0, each other after the nul before it.
#[derive(Clone, Copy, Debug, PartialEq, Eq)]
pub enum Parts {
    One(usize),
    Two(usize, usize),
    Three(usize, usize, usize),
    // none, more than three, or bytes left over
    Other,
}

// What follows two strings that end at a and b.
fn after_two(s: &[u8], a: usize, b: usize, rest: Cursor) -> Parts
    requires { (a < b) × (b < length s.now) × (rest.at ≡ b + 1) }
    ensures { result ≡ parts_of (prepended (part 0 a s.now)
        (prepended (part (a + 1) b s.now) (strings (drop (b + 1) s.now)))) }
{
    match rest.next(s) {
        Taken::String { end, next, .. } => match next.next(s) {
            Taken::End => Parts::Three(a, b, end),
            _ => Parts::Other,
        },
        Taken::End => Parts::Two(a, b),
        Taken::Left => Parts::Other,
    }
}

// What follows a string that ends at a.
fn after_one(s: &[u8], a: usize, rest: Cursor) -> Parts
    requires { (a < length s.now) × (rest.at ≡ a + 1) }
    ensures { result ≡ parts_of (prepended (part 0 a s.now) (strings (drop (a + 1) s.now))) }
{
    match rest.next(s) {
        Taken::String { end, next, .. } => after_two(s, a, end, next),
        Taken::End => Parts::One(a),
        Taken::Left => Parts::Other,
    }
}

// The strings of a payload, if they are one, two or three. Not inlined, so that the loops over a long payload have the registers to themselves.
#[inline(never)]
pub fn apart(s: &[u8]) -> Parts
    ensures { result ≡ parts_of (strings s.now) }
{
    match Cursor::new().next(s) {
        Taken::String { end, next, .. } => after_one(s, end, next),
        Taken::End | Taken::Left => Parts::Other,
    }
}
