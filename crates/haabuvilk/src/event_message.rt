// The event message of one record for one watch.
ghost use Rattle.haabuvilk.specs.Lent.{messaged, MessageMeets};

use crate::refusal::{HANDLED, Refusal};
use crate::sizes::sized_message;
use domains::checks::sound_domains;
use watches::checks::sound_watches;

// Puts the event message to the front of the lent buffer, and answers 0; or 1, 2 or 6 with the buffer unaltered.
pub fn haabuvilk_event_message<'a>(
    watches: &'a [u8],
    domains: &[u8],
    events: &'a [u8],
    event_count: u32,
    record: u32,
    watch: u32,
    message: &mut [u8],
    message_length: &mut u32,
) -> u32
    ensures { MessageMeets watches.now domains.now events.now message.old event_count «record» watch
        (messaged result message_length.new message.new) }
{
    *message_length = 0;
    if !sized_message(watches, domains, events, message) {
        return Refusal::WrongSize.number();
    }
    if !sound_domains(domains) {
        return Refusal::Unsound.number();
    }
    if !sound_watches(watches, domains) {
        return Refusal::Unsound.number();
    }
    let sent = events::message::message(watches, events, event_count, record, watch, message);
    let Some(n) = sent else {
        return Refusal::NoEvent.number();
    };
    *message_length = n;
    HANDLED
}
