// One message from one sender.
ghost use Rattle.std.specs.Prelude.{◌≡◌};
ghost use Rattle.rules.specs.Call.{call_number, handled, request_verdict};
ghost use Rattle.replies.specs.Does.{tables};
ghost use Rattle.haabuvilk.specs.Checks.{verdict_meant};
ghost use Rattle.haabuvilk.specs.Lent.{requested, RequestMeets};

use crate::checks::verdict;
use crate::refusal::{HANDLED, Refusal};
use octets::numbers::number32;
use octets::sizes::{HEADER_SIZE, TX_AT};
use replies::frame::framed;
use requests::handle::handle;
use senders::Sender;

// The verdict on a message that is to be handled; it has a name so that an edit can alter it alone.
const TO_HANDLE: Result<(), Refusal> = Ok(());

// The call number of a verdict.
fn number_of(verdict: Result<(), Refusal>) -> u32
    ensures { result ≡ call_number (verdict_meant verdict) }
{
    match verdict {
        Ok(()) => HANDLED,
        Err(refusal) => refusal.number(),
    }
}

// Handles a message that is not turned away, and leaves its results, which are 0 before.
fn handle_message(
    nodes: &mut [u8],
    copies: &mut [u8],
    watches: &mut [u8],
    transactions: &mut [u8],
    domains: &mut [u8],
    sender: u32,
    message: &[u8],
    reply: &mut [u8],
    events: &mut [u8],
    reply_length: &mut u32,
    event_count: &mut u32,
    page: &mut u64,
    channel: &mut u32,
)
    requires verdict { request_verdict (tables nodes.old copies.old watches.old transactions.old domains.old)
        reply.old events.old sender message.now ≡ handled }
    requires zero { (event_count.old ≡ 0) × (page.old ≡ 0) × (channel.old ≡ 0) }
    ensures { RequestMeets
        (tables nodes.old copies.old watches.old transactions.old domains.old)
        reply.old events.old sender message.now
        (requested 0 reply_length.new event_count.new page.new channel.new
        (tables nodes.new copies.new watches.new transactions.new domains.new)
        reply.new events.new) }
{
    let kind = number32(message, 0);
    let tx = number32(message, TX_AT);
    let outcome = handle(
        nodes,
        copies,
        watches,
        transactions,
        domains,
        Sender::of(sender),
        kind,
        tx,
        &message[HEADER_SIZE..],
        reply,
        events,
    );
    match outcome {
        Ok(done) => {
            *reply_length = framed(message, reply, Ok(done.length));
            *event_count = done.events as u32;
            *page = done.page;
            *channel = done.channel;
        }
        Err(e) => *reply_length = framed(message, reply, Err(e)),
    }
}

// Handles a message and answers 0; or answers another call number with all four results 0 and nothing lent altered.
pub fn haabuvilk_request(
    nodes: &mut [u8],
    copies: &mut [u8],
    watches: &mut [u8],
    transactions: &mut [u8],
    domains: &mut [u8],
    sender: u32,
    message: &[u8],
    reply: &mut [u8],
    events: &mut [u8],
    reply_length: &mut u32,
    event_count: &mut u32,
    page: &mut u64,
    channel: &mut u32,
) -> u32
    ensures { RequestMeets
        (tables nodes.old copies.old watches.old transactions.old domains.old)
        reply.old events.old sender message.now
        (requested result reply_length.new event_count.new page.new channel.new
        (tables nodes.new copies.new watches.new transactions.new domains.new)
        reply.new events.new) }
{
    *reply_length = 0;
    *event_count = 0;
    *page = 0;
    *channel = 0;
    let verdict = verdict(
        nodes,
        copies,
        watches,
        transactions,
        domains,
        sender,
        message,
        reply,
        events,
    );
    if verdict != TO_HANDLE {
        return number_of(verdict);
    }
    handle_message(
        nodes,
        copies,
        watches,
        transactions,
        domains,
        sender,
        message,
        reply,
        events,
        reply_length,
        event_count,
        page,
        channel,
    );
    HANDLED
}
