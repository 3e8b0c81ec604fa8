// Requests of a node.
ghost use Rattle.std.specs.Prelude.{◌≡◌};
ghost use Rattle.rules.specs.Octets.{Octets};
ghost use Rattle.rules.specs.Path.{Connection, domain_of};
ghost use Rattle.rules.specs.Payload.{on_root, strings, first_string, plain, writing};
ghost use Rattle.payload.specs.Meaning.{ask_meant, AskSound, Parses};
ghost use Rattle.payload.specs.Answers.{asking_of};

use crate::answer::{Ask, Path, Request};
use crate::cursor::{Cursor, Taken};
use crate::given::{is_root, named};
use crate::parts::{Parts, apart};
use senders::is_control;

// Whether the root may be asked: it is not removed, and its owner stays the control domain.
fn on_root(ask: Ask) -> bool
    ensures { (s : Octets) → result ≡ on_root (ask_meant s ask) }
{
    match ask {
        Ask::Rm => false,
        Ask::SetPerms(entries) => is_control(entries.kept[0].domain),
        _ => true,
    }
}

// What is asked of a path, if the path may be asked so.
pub fn asking(ask: Ask, path: Path) -> Option<Request>
    ensures { (s : Octets) → result ≡ asking_of s ask path }
{
    if is_root(path) && !on_root(ask) {
        return None;
    }
    Some(Request::Ask(ask, path))
}

// A path alone: DIRECTORY, READ, GET_PERMS, MKDIR and RM.
pub fn plain(ask: Ask, s: &[u8]) -> Option<Request>
    ensures { AskSound s.now ask → Parses s.now result (λ (c : Connection). plain (domain_of c) (ask_meant s.now ask) (strings s.now)) }
{
    let Parts::One(end) = apart(s) else {
        return None;
    };
    asking(ask, named(s, end)?)
}

// WRITE: a path, and the rest is the value.
pub fn write(s: &[u8]) -> Option<Request>
    ensures { Parses s.now result (λ (c : Connection). writing (domain_of c) (first_string s.now)) }
{
    let Taken::String { end, next, .. } = Cursor::new().next(s) else {
        return None;
    };
    asking(Ask::Write(next.at), named(s, end)?)
}
