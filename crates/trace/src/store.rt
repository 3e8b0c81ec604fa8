// The five tables, and the call on them.
use haabuvilk::fresh::haabuvilk_fresh;
use haabuvilk::request::haabuvilk_request;
use octets::sizes::{
    COPIES_SIZE, DOMAINS_SIZE, EVENTS_SIZE, REPLY_SIZE, TABLE_SIZE, TRANSACTIONS_SIZE, WATCHES_SIZE,
};

#[derive(Drop)]
pub struct Store {
    nodes: [u8; TABLE_SIZE],
    copies: [u8; COPIES_SIZE],
    watches: [u8; WATCHES_SIZE],
    transactions: [u8; TRANSACTIONS_SIZE],
    domains: [u8; DOMAINS_SIZE],
}

// What came of a message: the call number, the reply and the event records.
#[derive(Drop)]
pub struct Came {
    pub call: u32,
    pub reply: [u8; REPLY_SIZE],
    pub events: [u8; EVENTS_SIZE],
    pub event_count: u32,
}

impl Store {
    pub fn fresh() -> Store {
        let mut store = Store {
            nodes: [0; TABLE_SIZE],
            copies: [0; COPIES_SIZE],
            watches: [0; WATCHES_SIZE],
            transactions: [0; TRANSACTIONS_SIZE],
            domains: [0; DOMAINS_SIZE],
        };
        haabuvilk_fresh(
            &mut store.nodes,
            &mut store.copies,
            &mut store.watches,
            &mut store.transactions,
            &mut store.domains,
        );
        store
    }

    // Makes the call of a message; what is told of a new domain is dropped.
    pub fn request(&mut self, from: u32, message: &[u8], came: &mut Came) {
        let mut reply_length: u32 = 0;
        let mut page: u64 = 0;
        let mut channel: u32 = 0;
        came.call = haabuvilk_request(
            &mut self.nodes,
            &mut self.copies,
            &mut self.watches,
            &mut self.transactions,
            &mut self.domains,
            from,
            message,
            &mut came.reply,
            &mut came.events,
            &mut reply_length,
            &mut came.event_count,
            &mut page,
            &mut channel,
        );
    }
}
