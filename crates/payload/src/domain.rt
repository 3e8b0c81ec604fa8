// Requests about a domain.
ghost use Rattle.std.specs.Prelude.{◌≡◌, ◌^◌, ◌<◌};
ghost use Rattle.rules.specs.Path.{Connection};
ghost use Rattle.rules.specs.Payload.{strings, introduce_payload};
ghost use Rattle.octets.specs.Options.{meant};
ghost use Rattle.payload.specs.Meaning.{Parses};
ghost use Rattle.payload.specs.Answers.{domain_in};

use crate::answer::Request;
use crate::numbers::{LAST_DOMAIN, small};
use crate::parts::{Parts, apart};
use octets::decimals::signed;

// INTRODUCE: a domain id from 1 on, a page and a channel.
pub fn introduce(s: &[u8]) -> Option<Request>
    ensures { Parses s.now result (λ (c : Connection). introduce_payload (strings s.now)) }
{
    let Parts::Three(a, b, c) = apart(s) else {
        return None;
    };
    let domain = small(&s[..a], 1, LAST_DOMAIN)?;
    let page = signed(&s[a + 1..b])?;
    let channel = small(&s[b + 1..c], 0, u32::MAX as u64)?;
    Some(Request::Introduce {
        domain,
        page,
        channel,
    })
}

// A domain id from the least on, alone: RELEASE, GET_DOMAIN_PATH and IS_DOMAIN_INTRODUCED.
pub fn domain_alone(s: &[u8], least: u64) -> Option<u32>
    ensures { meant result ≡ domain_in least (strings s.now) }
{
    let Parts::One(end) = apart(s) else {
        return None;
    };
    small(&s[..end], least, LAST_DOMAIN)
}
