// Which watch hears what.
use crate::print::{print, print_octets};
use crate::store::{Came, Store};
use octets::sizes::{HEADER_SIZE, MESSAGE_SIZE, WATCHES};

// Prints a line for each watch and each record that it hears, with the payload of the event message.
pub fn print_events(rt: &impl Print, store: &Store, came: &Came) {
    for record in 0..came.event_count {
        for watch in 0..WATCHES as u32 {
            let mut message = [0u8; MESSAGE_SIZE];
            if let Some(length) = store.event_message(came, record, watch, &mut message) {
                let _ = print!(rt; "    watch {watch} hears ");
                print_octets(rt, message.get(HEADER_SIZE..length).unwrap_or(b""));
                print(rt, b"\n");
            }
        }
    }
}
