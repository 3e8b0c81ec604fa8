// Every size and offset, once; the rule book's `Size` has them by the same names.

// How much there can be: node slots with the root, watches, open transactions, introduced domains, event records.
pub const SLOTS: usize = 128;

pub const WATCHES: usize = 16;

pub const TRANSACTIONS: usize = 3;

pub const DOMAINS: usize = 8;

pub const RECORDS: usize = 128;

pub const LONGEST_NAME: usize = 32;

pub const LONGEST_VALUE: usize = 64;

pub const LONGEST_TOKEN: usize = 32;

pub const DEEPEST: usize = 8;

pub const MOST_ENTRIES: usize = 4;

pub const MOST_CHANGES: usize = 8;

// What a payload may hold.
pub const LONGEST_PAYLOAD: usize = 4096;

pub const LONGEST_ABSOLUTE: usize = 3072;

pub const LONGEST_RELATIVE: usize = 2048;

pub const LAST_DOMAIN: u32 = 32751;

// A message's header: type, req_id, tx_id, len.
pub const HEADER_SIZE: usize = 16;

pub const REQ_AT: usize = 4;

pub const TX_AT: usize = 8;

pub const LEN_AT: usize = 12;

// A stored path: a slash and a name a level.
pub const LONGEST_PATH: usize = DEEPEST * (1 + LONGEST_NAME);

// A slot: its fields, its permission entries, the name, the value.
pub const FIELDS_SIZE: usize = 3;

pub const ENTRIES_SIZE: usize = 9;

pub const NAME_AT: usize = FIELDS_SIZE + ENTRIES_SIZE;

pub const VALUE_AT: usize = NAME_AT + LONGEST_NAME;

pub const SLOT_SIZE: usize = VALUE_AT + LONGEST_VALUE;

pub const TABLE_SIZE: usize = SLOTS * SLOT_SIZE;

pub const COPIES_SIZE: usize = TRANSACTIONS * TABLE_SIZE;

pub const DOMAIN_SIZE: usize = 3;

pub const DOMAINS_SIZE: usize = DOMAINS * DOMAIN_SIZE;

// A watch: its fields, the path, the token.
pub const WATCH_FIELDS_SIZE: usize = 6;

pub const TOKEN_AT: usize = WATCH_FIELDS_SIZE + LONGEST_PATH;

pub const WATCH_SIZE: usize = TOKEN_AT + LONGEST_TOKEN;

pub const WATCHES_SIZE: usize = WATCHES * WATCH_SIZE;

// A change: its fields, the path. A transaction: its fields, the changes.
pub const CHANGE_FIELDS_SIZE: usize = 2;

pub const CHANGE_SIZE: usize = CHANGE_FIELDS_SIZE + LONGEST_PATH;

pub const CHANGES_AT: usize = 3;

pub const CHANGES_SIZE: usize = MOST_CHANGES * CHANGE_SIZE;

pub const TRANSACTION_SIZE: usize = CHANGES_AT + CHANGES_SIZE;

pub const TRANSACTIONS_SIZE: usize = TRANSACTIONS * TRANSACTION_SIZE;

// An event record: its mask, the path's length, the path.
pub const MASK_SIZE: usize = 2;

pub const RECORD_PATH_AT: usize = 4;

pub const RECORD_SIZE: usize = RECORD_PATH_AT + LONGEST_PATH;

pub const EVENTS_SIZE: usize = RECORDS * RECORD_SIZE;

pub const REPLY_SIZE: usize = HEADER_SIZE + LONGEST_PAYLOAD;

// An event message: the header, the path and a nul, the token and a nul.
pub const MESSAGE_SIZE: usize = HEADER_SIZE + LONGEST_PATH + 1 + LONGEST_TOKEN + 1;
