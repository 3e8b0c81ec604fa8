// What a request answers beside the tables that it changes.
ghost use Rattle.std.specs.Prelude.{◌≡◌, ◌++◌, Ok, length};
ghost use Rattle.rules.specs.Size.{reply_size};
ghost use Rattle.rules.specs.Octets.{nul};
ghost use Rattle.rules.specs.Answer.{OK, errno_text};
ghost use Rattle.replies.specs.Meant.{errno_meant};
ghost use Rattle.replies.specs.Framed.{Told};

use octets::parts::copy;
use octets::sizes::HEADER_SIZE;

// EINVAL, EACCES, EEXIST, ENOENT, ENOSPC, E2BIG, EAGAIN and ENOSYS.
#[derive(Clone, Copy, Debug, PartialEq, Eq)]
pub enum Errno {
    Invalid,
    Access,
    Exists,
    NoEntry,
    NoSpace,
    TooBig,
    Again,
    NoSystem,
}

impl Errno {
    // Its name and a nul, as a reply has them.
    pub fn text(self) -> &'static [u8]
        ensures { result.now ≡ errno_text (errno_meant self) ++ nul }
    {
        match self {
            Errno::Invalid => b"EINVAL\0",
            Errno::Access => b"EACCES\0",
            Errno::Exists => b"EEXIST\0",
            Errno::NoEntry => b"ENOENT\0",
            Errno::NoSpace => b"ENOSPC\0",
            Errno::TooBig => b"E2BIG\0",
            Errno::Again => b"EAGAIN\0",
            Errno::NoSystem => b"ENOSYS\0",
        }
    }
}

// How long the payload is that stands behind the reply's header, or the error.
pub type Reply = Result<usize, Errno>;

// What a request that succeeds tells: how long its payload is, how many event records it made, and the page and the channel of an INTRODUCE.
#[derive(Clone, Copy, Debug, PartialEq, Eq)]
pub struct Done {
    pub length: usize,
    pub events: usize,
    pub page: u64,
    pub channel: u32,
}

// What a request tells. One that is refused makes no event record, and introduces no one.
pub type Outcome = Result<Done, Errno>;

impl Done {
    // A payload with event records.
    pub fn with_events(length: usize, events: usize) -> Done
        ensures { result ≡ record { length = length; events = events; page = 0; channel = 0 } }
    {
        Done {
            length,
            events,
            page: 0,
            channel: 0,
        }
    }
}

// Puts `OK` and a nul behind the reply's header, and gives their length.
pub fn okay(reply: &mut [u8]) -> usize
    requires { length reply.old ≡ reply_size }
    ensures { Told OK (Ok result) reply.old reply.new }
{
    copy(reply, HEADER_SIZE, b"OK\0");
    3
}
