// What is printed of bytes and numbers.
use crate::store::Came;
use octets::numbers::number32;
use octets::sizes::{HEADER_SIZE, LEN_AT, SLOT_SIZE, TABLE_SIZE};

// As many bytes of a payload are printed.
const SHOWN: usize = 64;

// A write that fails is passed over.
pub fn print(to: &impl Print, text: &[u8]) {
    let _ = to.write_all(text);
}

// Tells standard error which line of the input is not of the form.
pub fn complain(err: &impl Print, line: &[u8]) {
    print(err, b"worked: neither words nor a step: ");
    print(err, line);
    print(err, b"\n");
}

// A byte as it is printed: `|` for a nul.
fn shown(b: u8) -> u8 {
    if b == 0 { b'|' } else { b }
}

// Prints the first 64 bytes.
pub fn print_octets(rt: &impl Print, s: &[u8]) {
    let mut text = [0u8; SHOWN];
    for (to, b) in text.iter_mut().zip(s) {
        *to = shown(*b);
    }
    print(rt, &text[..s.len().min(SHOWN)]);
    if SHOWN < s.len() {
        print(rt, b"..");
    }
}

// Prints the call number, and the reply's type, payload length, event count and payload.
pub fn print_reply(rt: &impl Print, came: &Came) {
    let call = came.call;
    let kind = number32(&came.reply, 0);
    let payload = number32(&came.reply, LEN_AT);
    let events = came.event_count;
    let _ = print!(rt; " -> {call} {kind} {payload} {events}");
    if payload != 0 {
        print(rt, b" ");
        print_octets(
            rt,
            came.reply
                .get(HEADER_SIZE..HEADER_SIZE + payload as usize)
                .unwrap_or(b""),
        );
    }
    print(rt, b"\n");
}

// Prints the three bytes that a slot begins with.
pub fn print_slot(rt: &impl Print, nodes: &[u8; TABLE_SIZE], slot: u32) {
    let start = slot as usize * SLOT_SIZE;
    print(rt, b" begins");
    for b in nodes.get(start..start + 3).unwrap_or(b"") {
        let _ = print!(rt; " {b:02x}");
    }
    print(rt, b"\n");
}
