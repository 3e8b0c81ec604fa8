// The requests that give a path a node: WRITE and MKDIR.
ghost use Rattle.std.specs.Prelude.{Ok, ◌≡◌, ◌<◌, length};
ghost use Rattle.rules.specs.Size.{reply_size};
ghost use Rattle.rules.specs.Path.{Domain, Names, names_in};
ghost use Rattle.rules.specs.Node.{reach};
ghost use Rattle.rules.specs.Payload.{write, mkdir};
ghost use Rattle.rules.specs.Answer.{OK, room, created};
ghost use Rattle.rules.specs.Layout.{table_of};
ghost use Rattle.slots.specs.Left.{left_at};
ghost use Rattle.lookup.specs.Reach.{Reaches};
ghost use Rattle.replies.specs.Framed.{Told};
ghost use Rattle.nodes.specs.Answers.{Standing, Ready, Answers, Answered};

use crate::kinds::{Answer, Effect, Given};
use lookup::reach::reach;
use lookup::rights::may_write;
use making::free::free_count;
use making::making::make;
use octets::sizes::LONGEST_VALUE;
use paths::names::fits;
use replies::kinds::{Errno, okay};
use slots::writing::put_value;

// Success with nothing to tell: `OK` and a nul.
pub fn success(reply: &mut [u8], effect: Effect) -> Given
    requires { length reply.old ≡ reply_size }
    ensures { (result.effect ≡ effect) × Told OK (Ok result.length) reply.old reply.new }
{
    Given {
        length: okay(reply),
        effect,
    }
}

// How many names a path's text has from one on that begins at an index.
pub fn names_left(path: &[u8], at: usize) -> usize
    requires { at < length path.now }
    ensures { result ≡ length (left_at path.now at) }
{
    let mut n: usize = 1;
    for i in at..path.len() {
        if path[i] == b'/' {
            n += 1;
        }
    }
    n
}

// Whether a path of which so many names are left can be made, with a value.
fn has_room(t: &[u8], path: &[u8], left: usize, value: &[u8]) -> bool
    requires { Standing t.now path.now }
    ensures { (d : Domain) (names : Names) → left ≡ length names →
        result ≡ room d (names_in path.now) (table_of t.now) names value.now }
{
    if LONGEST_VALUE < value.len() {
        return false;
    }
    if !fits(path) {
        return false;
    }
    left <= free_count(t)
}

// Makes what is left of a path below slot i, with a value in the last node.
fn create(
    t: &mut [u8],
    domain: u32,
    i: usize,
    path: &[u8],
    at: usize,
    value: &[u8],
    reply: &mut [u8],
) -> Answer
    requires { Ready t.old path.now reply.old domain × Reaches t.old path.now i at × (at < length path.now) }
    ensures { Answers (names_in path.now)
        (created domain (names_in path.now) (table_of t.old) (reach (table_of t.old) (names_in path.now))
        value.now) t.new reply.old reply.new result }
{
    if !may_write(t, i, domain) {
        return Err(Errno::Access);
    }
    let left = names_left(path, at);
    if !has_room(t, path, left, value) {
        return Err(Errno::NoSpace);
    }
    make(t, i, path, at, domain, value);
    let parents = left - 1;
    Ok(success(reply, Effect::Wrote(parents)))
}

pub fn write(t: &mut [u8], domain: u32, path: &[u8], value: &[u8], reply: &mut [u8]) -> Answer
    requires { Ready t.old path.now reply.old domain }
    ensures { Answered domain (write value.now) path.now t.old t.new reply.old
        reply.new result }
{
    let reached = reach(t, path);
    let slot = reached.slot;
    let at = reached.at;
    if at < path.len() {
        return create(t, domain, slot, path, at, value, reply);
    }
    if !may_write(t, slot, domain) {
        return Err(Errno::Access);
    }
    if LONGEST_VALUE < value.len() {
        return Err(Errno::NoSpace);
    }
    put_value(t, slot, value);
    Ok(success(reply, Effect::Wrote(0)))
}

pub fn mkdir(t: &mut [u8], domain: u32, path: &[u8], reply: &mut [u8]) -> Answer
    requires { Ready t.old path.now reply.old domain }
    ensures { Answered domain mkdir path.now t.old t.new reply.old reply.new result }
{
    let reached = reach(t, path);
    let slot = reached.slot;
    let at = reached.at;
    if at < path.len() {
        return create(t, domain, slot, path, at, b"", reply);
    }
    if may_write(t, slot, domain) {
        return Ok(success(reply, Effect::Nothing));
    }
    Err(Errno::Access)
}
