// The calls of the library haabuvilk, exported to C under the same names and with the same contracts.
#![tactic(auto)]

ghost use Rattle.replies.specs.Does.{tables};
ghost use Rattle.haabuvilk.specs.Lent.{refreshed, messaged, requested};
ghost use Rattle.haabuvilk.specs.Lent.{FreshMeets, MessageMeets, RequestMeets};

// Fills the tables with the fresh store, and answers 0; or 1 with nothing altered, where a size is wrong.
#[unsafe(no_mangle)]
pub extern "C" fn haabuvilk_fresh(
    nodes: &mut [u8],
    copies: &mut [u8],
    watches: &mut [u8],
    transactions: &mut [u8],
    domains: &mut [u8],
) -> u32
    ensures { FreshMeets
        (tables nodes.old copies.old watches.old transactions.old domains.old)
        (refreshed result (tables nodes.new copies.new watches.new transactions.new domains.new)) }
{
    haabuvilk::fresh::haabuvilk_fresh(nodes, copies, watches, transactions, domains)
}

// Handles a message and answers 0; or answers another call number with all four results 0 and nothing lent altered.
#[unsafe(no_mangle)]
pub extern "C" fn haabuvilk_request(
    nodes: &mut [u8],
    copies: &mut [u8],
    watches: &mut [u8],
    transactions: &mut [u8],
    domains: &mut [u8],
    sender: u32,
    message: &[u8],
    reply: &mut [u8],
    events: &mut [u8],
    reply_length: &mut u32,
    event_count: &mut u32,
    page: &mut u64,
    channel: &mut u32,
) -> u32
    ensures { RequestMeets
        (tables nodes.old copies.old watches.old transactions.old domains.old)
        reply.old events.old sender message.now
        (requested result reply_length.new event_count.new page.new channel.new
        (tables nodes.new copies.new watches.new transactions.new domains.new)
        reply.new events.new) }
{
    haabuvilk::request::haabuvilk_request(
        nodes,
        copies,
        watches,
        transactions,
        domains,
        sender,
        message,
        reply,
        events,
        reply_length,
        event_count,
        page,
        channel,
    )
}

// Puts the event message to the front of the lent buffer, and answers 0; or 1, 2 or 6 with the buffer unaltered.
#[unsafe(no_mangle)]
pub extern "C" fn haabuvilk_event_message<'a>(
    watches: &'a [u8],
    domains: &[u8],
    events: &'a [u8],
    event_count: u32,
    record: u32,
    watch: u32,
    message: &mut [u8],
    message_length: &mut u32,
) -> u32
    ensures { MessageMeets watches.now domains.now events.now message.old event_count «record» watch
        (messaged result message_length.new message.new) }
{
    haabuvilk::event_message::haabuvilk_event_message(
        watches,
        domains,
        events,
        event_count,
        record,
        watch,
        message,
        message_length,
    )
}
