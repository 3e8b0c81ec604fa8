// What stands on standard input: a sender of two bytes, high first, and its message, repeated.
ghost use Rattle.std.specs.Prelude.{◌≡◌, ◌+◌, ◌≤◌, length};

use octets::numbers::number32;
use octets::sizes::{HEADER_SIZE, LEN_AT, LONGEST_PAYLOAD};
use std::io::Read;

// A sender's two bytes stand before its message.
pub const MESSAGE_AT: usize = 2;

const HEAD_SIZE: usize = MESSAGE_AT + HEADER_SIZE;

const LENGTH_AT: usize = MESSAGE_AT + LEN_AT;

pub const INPUT_SIZE: usize = HEAD_SIZE + LONGEST_PAYLOAD;

const MOST_PAYLOAD: u32 = LONGEST_PAYLOAD as u32;

// One read into buf from `at` on: how many bytes came. 0 at the end of the input, and where the read fails, which standard
// error is told.
fn read_some(rt: &impl Eprint, from: &mut impl Read, buf: &mut [u8], at: usize) -> usize
    requires { at ≤ length buf.old }
    ensures { at + result ≤ length buf.old }
{
    match from.read(&mut buf[at..]) {
        Ok(n) => n,
        Err(e) => {
            let _ = eprintln!(rt; "trace: standard input: {e}");
            0
        }
    }
}

// Fills buf, and answers whether the input had that much.
fn fill(rt: &impl Eprint, from: &mut impl Read, buf: &mut [u8]) -> bool {
    let mut at = 0;
    // The place moves by as many bytes as a read gives.
    while at < buf.len() {
        let n = read_some(rt, from, buf, at);
        if n == 0 {
            return false;
        }
        at += n;
    }
    true
}

// The sender of the message that stands in the input.
pub fn sender(input: &[u8; INPUT_SIZE]) -> u32 {
    u32::from(u16::from_be_bytes([input[0], input[1]]))
}

// Whether the message's len is above 4,096.
pub fn is_oversize(input: &[u8; INPUT_SIZE]) -> bool {
    MOST_PAYLOAD < number32(input, LENGTH_AT)
}

// The place behind the message that stands in the input, which is the header alone where the message is oversize.
pub fn end_of(input: &[u8]) -> usize
    requires { length input.now ≡ 4114 }
    ensures { (18 ≤ result) × (result ≤ 4114) }
{
    let len = number32(input, LENGTH_AT);
    if MOST_PAYLOAD < len {
        return HEAD_SIZE;
    }
    HEAD_SIZE + len as usize
}

// Reads a sender and its message, and answers whether the input had both.
pub fn read_message(rt: &impl Eprint, from: &mut impl Read, input: &mut [u8]) -> bool
    requires { length input.old ≡ 4114 }
{
    if !fill(rt, from, &mut input[0..HEAD_SIZE]) {
        return false;
    }
    let end = end_of(input);
    fill(rt, from, &mut input[HEAD_SIZE..end])
}
