// Runs worked lines through the exported calls, and prints each with what came. A line that starts with no blank is the words
// of a worked line, and starts from the fresh store; its steps follow, each behind two blanks: `slot K` shows how slot K
// begins, and a request is sender, type, tx_id and payload, with `|` for a nul. `times N` before a request makes it N times,
// or up to the first that is refused, and counts up the number at the end of its payload.
#![tactic(auto)]

ghost use Rattle.std.specs.Prelude.{◌≤◌, length};

mod call;
mod event_lines;
mod print;
mod step;
mod store;
mod words;

use call::ask;
use print::{print, print_slot};
use std::io::Read;
use step::{Step, is_formed, step_in};
use store::Store;

// More than the worked lines have.
const INPUT_SIZE: usize = 16384;

// Does what a line says, which is words or a step.
fn work(rt: &impl Print, store: &mut Store, line: &[u8]) {
    print(rt, line);
    match step_in(line) {
        Some(Step::Slot(slot)) => print_slot(rt, &store.nodes, slot),
        Some(Step::Made(request)) => ask(rt, store, &request),
        None => {
            print(rt, b"\n");
            *store = Store::fresh();
        }
    }
}

// Reads until buf is full, the input ends or a read fails, and answers how many bytes came.
fn read_full(from: &mut impl Read, buf: &mut [u8]) -> usize
    ensures { result ≤ length buf.new }
{
    let mut done = 0;
    // The place moves by as many bytes as a read gives.
    while done < buf.len() {
        match from.read(&mut buf[done..]) {
            Ok(0) => break,
            Ok(n) => done += n,
            Err(_) => break,
        }
    }
    done
}

fn main(rt: HostRuntime) {
    let mut input = [0u8; INPUT_SIZE];
    let n = read_full(&mut rt.stdin(), &mut input);
    if n == INPUT_SIZE {
        let _ = eprintln!(rt; "worked: the input has 16,384 bytes or more");
        return;
    }
    if !is_formed(&rt.stderr(), &input[..n]) {
        return;
    }
    let mut store = Store::fresh();
    for line in input[..n].split_inclusive(|b| *b == b'\n') {
        work(&rt, &mut store, line.strip_suffix(b"\n").unwrap_or(line));
    }
}
