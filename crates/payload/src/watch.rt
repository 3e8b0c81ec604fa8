// WATCH and UNWATCH.
ghost use Rattle.std.specs.Prelude.{◌+◌, ◌<◌, length, take};
ghost use Rattle.rules.specs.Path.{Connection, domain_of, given};
ghost use Rattle.rules.specs.Payload.{strings, place_of, watch_payload, unwatch_payload};
ghost use Rattle.octets.specs.Options.{meant};
ghost use Rattle.payload.specs.Strings.{part};
ghost use Rattle.payload.specs.Meaning.{DepthSound, Parses};
ghost use Rattle.payload.specs.Answers.{watch_of};

use crate::answer::Request;
use crate::given::{depth_fits, placed};
use crate::numbers::small;
use crate::parts::{Parts, apart};

// The greatest depth that a watch may have.
const DEEPEST_WATCH: u64 = 255;

// A path that ends at a, a token that ends at b, and perhaps a depth, which has to suit the path.
fn watching(s: &[u8], a: usize, b: usize, depth: Option<u32>) -> Option<Request>
    requires { (a < b) × (b < length s.now) }
    ensures { DepthSound depth → Parses s.now result (λ (c : Connection).
        watch_of (place_of (domain_of c) (given (take a s.now))) (part (a + 1) b s.now) (meant depth)) }
{
    let path = placed(s, a)?;
    if let Some(k) = depth {
        if !depth_fits(path, k) {
            return None;
        }
    }
    Some(Request::Watch {
        path,
        start: a + 1,
        end: b,
        depth,
    })
}

// WATCH: a path or an event's name, a token, and perhaps a depth.
pub fn watch(s: &[u8]) -> Option<Request>
    ensures { Parses s.now result (λ (c : Connection). watch_payload (domain_of c) (strings s.now)) }
{
    match apart(s) {
        Parts::Two(a, b) => watching(s, a, b, None),
        Parts::Three(a, b, c) => {
            let depth = small(&s[b + 1..c], 0, DEEPEST_WATCH)?;
            watching(s, a, b, Some(depth))
        }
        _ => None,
    }
}

// UNWATCH: a path or an event's name, and a token.
pub fn unwatch(s: &[u8]) -> Option<Request>
    ensures { Parses s.now result (λ (c : Connection). unwatch_payload (domain_of c) (strings s.now)) }
{
    let Parts::Two(a, b) = apart(s) else {
        return None;
    };
    Some(Request::Unwatch {
        path: placed(s, a)?,
        start: a + 1,
        end: b,
    })
}
