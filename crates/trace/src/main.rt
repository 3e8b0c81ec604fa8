// Reads messages from standard input, each behind its sender, and prints a line for each.
#![tactic(auto)]

mod input;
mod line;
mod store;

use input::{INPUT_SIZE, MESSAGE_AT, end_of, is_oversize, read_message, sender};
use line::print_call;
use octets::sizes::{EVENTS_SIZE, REPLY_SIZE};
use std::io::Read;
use store::{Came, Store};

// Makes the call of each message that is read, and prints its line.
fn serve_all(rt: &(impl Print + Eprint), from: &mut impl Read, store: &mut Store) {
    let mut input = [0u8; INPUT_SIZE];
    let mut came = Came {
        call: 0,
        reply: [0; REPLY_SIZE],
        events: [0; EVENTS_SIZE],
        event_count: 0,
    };
    for number in 1..u64::MAX {
        if !read_message(rt, from, &mut input) {
            return;
        }
        store.request(
            sender(&input),
            &input[MESSAGE_AT..end_of(&input)],
            &mut came,
        );
        if !print_call(rt, number, &came) || is_oversize(&input) {
            return;
        }
    }
}

fn main(rt: HostRuntime) {
    serve_all(&rt, &mut rt.stdin(), &mut Store::fresh());
}
