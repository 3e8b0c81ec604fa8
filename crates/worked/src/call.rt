// One request: its message, the call, and what came.
ghost use Rattle.std.specs.Prelude.{◌≡◌, ◌≤◌, length};
ghost use Rattle.rules.specs.Size.{reply_size};

use crate::event_lines::print_events;
use crate::print::print_reply;
use crate::step::Request;
use crate::store::{Came, Store};
use octets::numbers::{number32, put_number32};
use octets::sizes::{EVENTS_SIZE, HEADER_SIZE, LEN_AT, LONGEST_PAYLOAD, REPLY_SIZE, TX_AT};

const ERROR: u32 = 16;

// A byte of a payload as it is written down: `|` means a nul.
fn meant(b: u8) -> u8 {
    if b == b'|' { 0 } else { b }
}

// Puts a payload as written down behind the header and its length into it, and answers the message's length.
fn put_payload(message: &mut [u8], payload: &[u8]) -> usize
    requires { length message.old ≡ reply_size }
    ensures { result ≤ reply_size }
{
    let n = payload.len().min(LONGEST_PAYLOAD);
    for (to, from) in message[HEADER_SIZE..HEADER_SIZE + n]
        .iter_mut()
        .zip(payload)
    {
        *to = meant(*from);
    }
    put_number32(message, LEN_AT, n as u32);
    HEADER_SIZE + n
}

// Makes the message of a request, with req_id 0, and answers its length.
fn put_message(message: &mut [u8], request: &Request) -> usize
    requires { length message.old ≡ reply_size }
    ensures { result ≤ reply_size }
{
    put_number32(message, 0, request.kind);
    put_number32(message, TX_AT, request.tx);
    put_payload(message, request.payload)
}

// Counts up the number that stands before the last byte of a message.
fn count_up(message: &mut [u8]) {
    for b in message.iter_mut().rev().skip(1) {
        match *b {
            b'9' => *b = b'0',
            b'0'..=b'8' => {
                *b += 1;
                return;
            }
            _ => return,
        }
    }
}

// Makes the calls of a request, up to the first that is refused, and prints what came of the last.
pub fn ask(rt: &impl Print, store: &mut Store, request: &Request) {
    let mut message = [0u8; REPLY_SIZE];
    let mut came = Came {
        call: 0,
        reply: [0; REPLY_SIZE],
        events: [0; EVENTS_SIZE],
        event_count: 0,
    };
    let end = put_message(&mut message, request);
    for _ in 0..request.times {
        store.request(request.sender, &message[..end], &mut came);
        if number32(&came.reply, 0) == ERROR {
            break;
        }
        count_up(&mut message[..end]);
    }
    print_reply(rt, &came);
    print_events(rt, store, &came);
}
