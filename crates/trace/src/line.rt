// The line of a message: its number, the call number, and the reply's type, payload length and events.
use crate::store::Came;
use octets::numbers::number32;
use octets::sizes::LEN_AT;

// Prints the line of a call. The last three numbers are 0 where the call number isn't. False where it can't be written, which
// standard error is told.
pub fn print_call(rt: &(impl Print + Eprint), number: u64, came: &Came) -> bool {
    let call = came.call;
    let (kind, length, events) = if call == 0 {
        (
            number32(&came.reply, 0),
            number32(&came.reply, LEN_AT),
            came.event_count,
        )
    } else {
        (0, 0, 0)
    };
    if let Err(e) = println!(rt; "{number} {call} {kind} {length} {events}") {
        let _ = eprintln!(rt; "trace: standard output: {e}");
        return false;
    }
    true
}
