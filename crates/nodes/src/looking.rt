// The requests that read: READ, DIRECTORY and GET_PERMS.
ghost use Rattle.std.specs.Prelude.{◌≡◌};
ghost use Rattle.rules.specs.Path.{Names};
ghost use Rattle.rules.specs.Payload.{directory, read, get_perms};
ghost use Rattle.rules.specs.Answer.{absent};
ghost use Rattle.rules.specs.Layout.{table_of};
ghost use Rattle.lookup.specs.Rights.{Asked};
ghost use Rattle.nodes.specs.Answers.{Standing, Ready, Answered};
ghost use Rattle.replies.specs.Meant.{errno_meant};
ghost use Rattle.nodes.specs.Sights.{Sees};

use crate::kinds::{Answer, Effect, Given};
use lookup::children::children;
use lookup::listing::{names_length, put_entries, put_names};
use lookup::reach::reach;
use lookup::rights::may_read;
use octets::parts::copy;
use octets::sizes::{HEADER_SIZE, LONGEST_PAYLOAD, SLOTS};
use replies::kinds::Errno;
use slots::fields::value;

// A payload of n bytes, with nothing done.
fn shown(n: usize) -> Given
    ensures { result ≡ record { length = n; effect = Effect.Nothing } }
{
    Given {
        length: n,
        effect: Effect::Nothing,
    }
}

// The error for an absent path whose nearest present ancestor is slot i.
pub fn absent(t: &[u8], i: usize, domain: u32) -> Errno
    requires { Asked t.now i }
    ensures { (ns : Names) → errno_meant result ≡ absent domain ns (table_of t.now) i }
{
    if may_read(t, i, domain) {
        return Errno::NoEntry;
    }
    Errno::Access
}

// The slot that a reading request of a domain for a path may read, or why it may not.
fn look(t: &[u8], domain: u32, path: &[u8]) -> Result<usize, Errno>
    requires { Standing t.now path.now }
    ensures { Sees t.now path.now domain result }
{
    let reached = reach(t, path);
    let slot = reached.slot;
    if reached.at < path.len() {
        return Err(absent(t, slot, domain));
    }
    if may_read(t, slot, domain) {
        return Ok(slot);
    }
    Err(Errno::Access)
}

pub fn read(t: &[u8], domain: u32, path: &[u8], reply: &mut [u8]) -> Answer
    requires { Ready t.now path.now reply.old domain }
    ensures { Answered domain read path.now t.now t.now reply.old reply.new result }
{
    let slot = look(t, domain, path)?;
    let v = value(t, slot);
    copy(reply, HEADER_SIZE, v);
    Ok(shown(v.len()))
}

pub fn get_perms(t: &[u8], domain: u32, path: &[u8], reply: &mut [u8]) -> Answer
    requires { Ready t.now path.now reply.old domain }
    ensures { Answered domain get_perms path.now t.now t.now reply.old reply.new result }
{
    let slot = look(t, domain, path)?;
    let to = put_entries(t, slot, reply, HEADER_SIZE);
    Ok(shown(to - HEADER_SIZE))
}

pub fn directory(t: &[u8], domain: u32, path: &[u8], reply: &mut [u8]) -> Answer
    requires { Ready t.now path.now reply.old domain }
    ensures { Answered domain directory path.now t.now t.now reply.old reply.new result }
{
    let slot = look(t, domain, path)?;
    let mut list = [0; SLOTS];
    let n = children(t, slot, &mut list);
    let long = names_length(t, &list, n);
    if LONGEST_PAYLOAD < long {
        return Err(Errno::TooBig);
    }
    put_names(t, &list, n, reply, HEADER_SIZE);
    Ok(shown(long))
}
