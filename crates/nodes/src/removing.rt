// The request that removes: RM.
ghost use Rattle.std.specs.Prelude.{◌<◌, length};
ghost use Rattle.rules.specs.Payload.{rm};
ghost use Rattle.lookup.specs.Reach.{Reaches};
ghost use Rattle.nodes.specs.Answers.{Ready, Answered};

use crate::changing::{names_left, success};
use crate::kinds::{Answer, Effect};
use crate::looking::absent;
use lookup::reach::reach;
use lookup::rights::{may_read, may_write};
use making::removing::remove;
use replies::kinds::Errno;

// RM of an absent path, of which the names from `at` on are left.
fn remove_absent(
    t: &[u8],
    domain: u32,
    i: usize,
    path: &[u8],
    at: usize,
    reply: &mut [u8],
) -> Answer
    requires { Ready t.now path.now reply.old domain × Reaches t.now path.now i at × (at < length path.now) }
    ensures { Answered domain rm path.now t.now t.now reply.old reply.new result }
{
    if 1 < names_left(path, at) {
        return Err(absent(t, i, domain));
    }
    if may_read(t, i, domain) {
        return Ok(success(reply, Effect::Nothing));
    }
    Err(Errno::Access)
}

pub fn rm(t: &mut [u8], domain: u32, path: &[u8], reply: &mut [u8]) -> Answer
    requires { Ready t.old path.now reply.old domain }
    ensures { Answered domain rm path.now t.old t.new reply.old reply.new result }
{
    let reached = reach(t, path);
    let slot = reached.slot;
    let at = reached.at;
    if at < path.len() {
        return remove_absent(t, domain, slot, path, at, reply);
    }
    if !may_write(t, slot, domain) {
        return Err(Errno::Access);
    }
    remove(t, slot);
    Ok(success(reply, Effect::Removed))
}
