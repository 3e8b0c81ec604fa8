// A node request of any of the seven kinds.
ghost use Rattle.payload.specs.Meaning.{ask_meant, AskSound};
ghost use Rattle.nodes.specs.Answers.{Ready, Answered};

use crate::changing::{mkdir, write};
use crate::kinds::Answer;
use crate::looking::{directory, get_perms, read};
use crate::permitting::set_perms;
use crate::removing::rm;
use payload::answer::Ask;

// Answers what a domain asks for a full path, on a sound table; the value of a WRITE stands in the payload s.
pub fn answer(
    t: &mut [u8],
    domain: u32,
    ask: Ask,
    path: &[u8],
    s: &[u8],
    reply: &mut [u8],
) -> Answer
    requires { Ready t.old path.now reply.old domain × AskSound s.now ask }
    ensures { Answered domain (ask_meant s.now ask) path.now t.old t.new reply.old
        reply.new result }
{
    match ask {
        Ask::Directory => directory(t, domain, path, reply),
        Ask::Read => read(t, domain, path, reply),
        Ask::GetPerms => get_perms(t, domain, path, reply),
        Ask::Write(from) => write(t, domain, path, &s[from..], reply),
        Ask::Mkdir => mkdir(t, domain, path, reply),
        Ask::Rm => rm(t, domain, path, reply),
        Ask::SetPerms(entries) => set_perms(t, domain, path, entries, reply),
    }
}
