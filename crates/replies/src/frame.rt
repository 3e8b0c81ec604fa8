// The reply's frame: "A reply copies type, req_id and tx_id; an error has type 16, copies the last two and carries the errno name and a nul."
ghost use Rattle.std.specs.Prelude.{◌≡◌, ◌++◌, ◌+◌, ◌≤◌, length};
ghost use Rattle.rules.specs.Size.{header_size, reply_size};
ghost use Rattle.rules.specs.Octets.{nul, paste};
ghost use Rattle.rules.specs.Answer.{errno_text};
ghost use Rattle.replies.specs.Meant.{errno_meant};
ghost use Rattle.replies.specs.Framed.{Written, Held, header, Framed};

use crate::kinds::{Errno, Reply};
use octets::numbers::{number32, put_number32};
use octets::parts::copy;
use octets::sizes::{HEADER_SIZE, LEN_AT, REQ_AT};

// The type of a reply that is an error.
const ERROR: u32 = 16;

// Puts a payload behind the header, and gives its length.
fn put_payload(reply: &mut [u8], s: &[u8]) -> usize
    requires { (length reply.old ≡ reply_size) × (header_size + length s.now ≤ reply_size) }
    ensures { Written s.now reply.old reply.new result }
{
    copy(reply, HEADER_SIZE, s);
    s.len()
}

// Puts an error's name and a nul behind the header, and gives their length.
fn put_errno(reply: &mut [u8], e: Errno) -> usize
    requires { length reply.old ≡ reply_size }
    ensures { Written (errno_text (errno_meant e) ++ nul) reply.old reply.new result }
{
    put_payload(reply, e.text())
}

// Puts a reply's header to a message before a payload of n bytes, and gives the reply's length.
fn put_header(message: &[u8], kind: u32, n: usize, reply: &mut [u8]) -> u32
    requires { (header_size ≤ length message.now) × (length reply.old ≡ reply_size) × (header_size + n ≤ reply_size) }
    ensures { (result ≡ header_size + n) × (reply.new ≡ paste 0 (header kind message.now n) reply.old) }
{
    put_number32(reply, 0, kind);
    copy(reply, REQ_AT, &message[REQ_AT..LEN_AT]);
    put_number32(reply, LEN_AT, n as u32);
    (HEADER_SIZE + n) as u32
}

// The reply to a message whose payload stands behind the header, or the error in its place; gives the reply's length.
pub fn framed(message: &[u8], reply: &mut [u8], r: Reply) -> u32
    requires { (header_size ≤ length message.now) × (length reply.old ≡ reply_size) × Held r }
    ensures { Framed message.now r reply.old reply.new result }
{
    match r {
        Ok(n) => put_header(message, number32(message, 0), n, reply),
        Err(e) => {
            let n = put_errno(reply, e);
            put_header(message, ERROR, n, reply)
        }
    }
}
