// Requests whose payload is fixed.
ghost use Rattle.rules.specs.Path.{Connection};
ghost use Rattle.rules.specs.Payload as rules;
ghost use Rattle.payload.specs.Meaning.{Parses};

use crate::answer::Request;
use octets::compare::same;

// START: outside a transaction, with a single nul.
pub fn start(tx: u32, s: &[u8]) -> Option<Request>
    ensures { Parses s.now result (λ (c : Connection). rules.start_payload tx s.now) }
{
    if tx == 0 && same(s, b"\0") {
        return Some(Request::Start);
    }
    None
}

// RESET_WATCHES: a single nul.
pub fn reset(s: &[u8]) -> Option<Request>
    ensures { Parses s.now result (λ (c : Connection). rules.bare rules.reset s.now) }
{
    if same(s, b"\0") {
        return Some(Request::Reset);
    }
    None
}

// END: T commits, F drops.
pub fn end(s: &[u8]) -> Option<Request>
    ensures { Parses s.now result (λ (c : Connection). rules.end_payload s.now) }
{
    if same(s, b"T\0") {
        return Some(Request::End(true));
    }
    if same(s, b"F\0") {
        return Some(Request::End(false));
    }
    None
}
