// A request's type and payload, taken apart.
ghost use Rattle.rules.specs.Path.{Connection};
ghost use Rattle.rules.specs.Payload.{parse};
ghost use Rattle.payload.specs.Kinds.{number_of};
ghost use Rattle.payload.specs.Meaning.{Means, Parses, kept};

use crate::answer::{Ask, Request};
use crate::asks::{plain, write};
use crate::bare::{end, reset, start};
use crate::domain::{domain_alone, introduce};
use crate::entries::set_perms;
use crate::kind::Kind;
use crate::watch::{unwatch, watch};

// The request of a kind, a transaction and a payload, unless the payload is malformed.
fn parsed(kind: Kind, tx: u32, s: &[u8]) -> Option<Request>
    ensures { Parses s.now result (λ (c : Connection). kept (parse c (number_of kind) tx s.now)) }
{
    match kind {
        Kind::Directory => plain(Ask::Directory, s),
        Kind::Read => plain(Ask::Read, s),
        Kind::GetPerms => plain(Ask::GetPerms, s),
        Kind::Watch => watch(s),
        Kind::Unwatch => unwatch(s),
        Kind::Start => start(tx, s),
        Kind::End => end(s),
        Kind::Introduce => introduce(s),
        Kind::Release => Some(Request::Release(domain_alone(s, 1)?)),
        Kind::DomainPath => Some(Request::DomainPath(domain_alone(s, 0)?)),
        Kind::Write => write(s),
        Kind::Mkdir => plain(Ask::Mkdir, s),
        Kind::Rm => plain(Ask::Rm, s),
        Kind::SetPerms => set_perms(s),
        Kind::IsIntroduced => Some(Request::IsIntroduced(domain_alone(s, 0)?)),
        Kind::Reset => reset(s),
    }
}

// The request of a type, a transaction and a payload.
pub fn parse(kind: u32, tx: u32, s: &[u8]) -> Request
    ensures { Means s.now result (λ (c : Connection). kept (parse c kind tx s.now)) }
{
    match Kind::of(kind) {
        Some(kind) => parsed(kind, tx, s).unwrap_or(Request::Invalid),
        None => Request::Unknown,
    }
}
