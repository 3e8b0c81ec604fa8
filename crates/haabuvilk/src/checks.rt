// What a request is lent, checked before the request is looked at.
ghost use Rattle.std.specs.Prelude.{◌≡◌, true, ◌*◌, ◌<◌, length, get_or, take, drop};
ghost use Rattle.std.proofs.Math.Option.{none};
ghost use Rattle.rules.specs.Size.{most_transactions, table_size, copies_size, transactions_size};
ghost use Rattle.rules.specs.Octets.{chunks};
ghost use Rattle.rules.specs.Layout.{transactions_of};
ghost use Rattle.rules.specs.Call.{sized_tables, sound, frame_verdict, request_verdict};
ghost use Rattle.transactions.specs.Checks.{sound_copies};
ghost use Rattle.replies.specs.Does.{tables};
ghost use Rattle.haabuvilk.specs.Checks.{sound_copy, verdict_meant};

use crate::refusal::Refusal;
use crate::sizes::sized_tables;
use domains::checks::sound_domains;
use domains::places::known_sender;
use octets::numbers::number32;
use octets::sizes::{EVENTS_SIZE, HEADER_SIZE, LEN_AT, REPLY_SIZE, TABLE_SIZE, TRANSACTIONS};
use soundness::table::sound;
use transactions::checks::sound_entries;
use transactions::places::is_open;
use watches::checks::sound_watches;

const LONGEST_PAYLOAD: u32 = octets::sizes::LONGEST_PAYLOAD as u32;

// Whether transaction k is closed or its copy a sound node table.
fn sound_copy(copies: &[u8], transactions: &[u8], k: usize) -> bool
    requires { (k < most_transactions) × (length copies.now ≡ copies_size) × (length transactions.now ≡ transactions_size) }
    ensures { result ≡ sound_copy
        (get_or (transactions_of transactions.now) k none) (take table_size (drop (k * table_size) copies.now)) }
{
    if !is_open(transactions, k) {
        return true;
    }
    let at = k * TABLE_SIZE;
    sound(&copies[at..at + TABLE_SIZE])
}

// Whether the copy of each open transaction is a sound node table.
fn sound_copies(copies: &[u8], transactions: &[u8]) -> bool
    requires { (length copies.now ≡ copies_size) × (length transactions.now ≡ transactions_size) }
    ensures { result ≡ sound_copies (transactions_of transactions.now) (chunks most_transactions table_size copies.now) }
{
    for i in 0..TRANSACTIONS {
        if !sound_copy(copies, transactions, i) {
            return false;
        }
    }
    true
}

// Whether the five tables are sound.
pub fn sound_tables(
    nodes: &[u8],
    copies: &[u8],
    watches: &[u8],
    transactions: &[u8],
    domains: &[u8],
) -> bool
    requires { sized_tables (tables nodes.now copies.now watches.now transactions.now domains.now) ≡ true }
    ensures { result ≡ sound
        (tables nodes.now copies.now watches.now transactions.now domains.now) }
{
    if !sound(nodes) {
        return false;
    }
    if !sound_domains(domains) {
        return false;
    }
    if !sound_watches(watches, domains) {
        return false;
    }
    if !sound_entries(transactions, domains) {
        return false;
    }
    sound_copies(copies, transactions)
}

// Whether a message is whole, by its header and its length alone.
fn frame(message: &[u8]) -> Result<(), Refusal>
    ensures { verdict_meant result ≡ frame_verdict message.now }
{
    let n = message.len();
    if n < HEADER_SIZE {
        return Err(Refusal::Broken);
    }
    let len = number32(message, LEN_AT);
    if LONGEST_PAYLOAD < len {
        return Err(Refusal::Overlong);
    }
    if n == HEADER_SIZE + len as usize {
        return Ok(());
    }
    Err(Refusal::Broken)
}

// Whether a message is to be handled, by what is lent, before its request is looked at.
pub fn verdict(
    nodes: &[u8],
    copies: &[u8],
    watches: &[u8],
    transactions: &[u8],
    domains: &[u8],
    sender: u32,
    message: &[u8],
    reply: &[u8],
    events: &[u8],
) -> Result<(), Refusal>
    ensures { verdict_meant result ≡ request_verdict
        (tables nodes.now copies.now watches.now transactions.now domains.now)
        reply.now events.now sender message.now }
{
    if !sized_tables(nodes, copies, watches, transactions, domains) {
        return Err(Refusal::WrongSize);
    }
    if reply.len() != REPLY_SIZE {
        return Err(Refusal::WrongSize);
    }
    if events.len() != EVENTS_SIZE {
        return Err(Refusal::WrongSize);
    }
    if !sound_tables(nodes, copies, watches, transactions, domains) {
        return Err(Refusal::Unsound);
    }
    if !known_sender(domains, sender) {
        return Err(Refusal::Stranger);
    }
    frame(message)
}
