// The form of the input: its lines, and the step that a line says.
use crate::print::complain;
use crate::words::{behind, number, type_of, word};
use octets::sizes::LONGEST_PAYLOAD;

// A request of a step, which is made `times` times.
#[derive(Drop)]
pub struct Request<'a> {
    pub times: u32,
    pub sender: u32,
    pub kind: u32,
    pub tx: u32,
    pub payload: &'a [u8],
}

#[derive(Drop)]
pub enum Step<'a> {
    // How this slot begins is shown.
    Slot(u32),
    Made(Request<'a>),
}

// Whether a line is the words of a worked line.
pub fn is_words(line: &[u8]) -> bool {
    line.first().is_some_and(|b| *b != b' ')
}

// The request that a line says.
fn request_in(line: &[u8]) -> Option<Request<'_>> {
    let (times, k) = match number(word(line, 3)) {
        Some(times) if line.starts_with(b"  times ") => (times, 4),
        _ => (1, 2),
    };
    Some(Request {
        times,
        sender: number(word(line, k))?,
        kind: type_of(word(line, k + 1))?,
        tx: number(word(line, k + 2))?,
        payload: behind(line, k + 3),
    })
}

// The step that a line says.
pub fn step_in(line: &[u8]) -> Option<Step<'_>> {
    if LONGEST_PAYLOAD < line.len() || !line.starts_with(b"  ") {
        return None;
    }
    if line.starts_with(b"  slot ") {
        return Some(Step::Slot(number(word(line, 3))?));
    }
    Some(Step::Made(request_in(line)?))
}

// Whether each line of the input is words or, behind some words, a step. Standard error is told which is neither.
pub fn is_formed(err: &impl Print, input: &[u8]) -> bool {
    let mut begun = false;
    for line in input.split_inclusive(|b| *b == b'\n') {
        let line = line.strip_suffix(b"\n").unwrap_or(line);
        if is_words(line) {
            begun = true;
        } else if !begun || step_in(line).is_none() {
            complain(err, line);
            return false;
        }
    }
    true
}
