// The sizes of the lent buffers.
ghost use Rattle.std.specs.Prelude.{◌≡◌};
ghost use Rattle.rules.specs.Call.{sized_tables};
ghost use Rattle.rules.specs.Message.{sized_message};
ghost use Rattle.replies.specs.Does.{tables};

use octets::sizes::{
    COPIES_SIZE, DOMAINS_SIZE, EVENTS_SIZE, MESSAGE_SIZE, TABLE_SIZE, TRANSACTIONS_SIZE,
    WATCHES_SIZE,
};

// Whether each of the five tables has its size.
pub fn sized_tables(
    nodes: &[u8],
    copies: &[u8],
    watches: &[u8],
    transactions: &[u8],
    domains: &[u8],
) -> bool
    ensures { result ≡ sized_tables
        (tables nodes.now copies.now watches.now transactions.now domains.now) }
{
    if nodes.len() != TABLE_SIZE {
        return false;
    }
    if copies.len() != COPIES_SIZE {
        return false;
    }
    if watches.len() != WATCHES_SIZE {
        return false;
    }
    if transactions.len() != TRANSACTIONS_SIZE {
        return false;
    }
    domains.len() == DOMAINS_SIZE
}

// Whether each buffer that the event-message call is lent has its size.
pub fn sized_message(watches: &[u8], domains: &[u8], events: &[u8], message: &[u8]) -> bool
    ensures { result ≡ sized_message watches.now domains.now events.now message.now }
{
    if watches.len() != WATCHES_SIZE {
        return false;
    }
    if domains.len() != DOMAINS_SIZE {
        return false;
    }
    if events.len() != EVENTS_SIZE {
        return false;
    }
    message.len() == MESSAGE_SIZE
}
