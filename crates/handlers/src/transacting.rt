// TRANSACTION_START and TRANSACTION_END.
ghost use Rattle.std.specs.Prelude.{◌≡◌, ◌<◌, not, length, set};
ghost use Rattle.std.proofs.Math.Option.{none, some};
ghost use Rattle.rules.specs.Size.{reply_size, copies_size};
ghost use Rattle.rules.specs.Entries.{is_empty};
ghost use Rattle.rules.specs.Layout.{transactions_bytes, transactions_of};
ghost use Rattle.rules.specs.World.{World, staled_if, starting, committing, ending};
ghost use Rattle.slots.specs.Slot.{Canonical};
ghost use Rattle.transactions.specs.Transaction.{KeptTransactions, transaction_of, OpenTransaction};
ghost use Rattle.handlers.specs.Transacting.{HeldOr, Committable};
ghost use Rattle.replies.specs.Does.{lent, Does};

use events::changes::changes;
use octets::parts::copy;
use octets::sizes::{HEADER_SIZE, TABLE_SIZE};
use octets::written::put_decimal;
use replies::kinds::{Done, Errno, Outcome, okay};
use transactions::changes::{close, open, stale_all};
use transactions::places::{held, lowest_free, stale};

// Starts a connection's transaction: the lowest id that is not open, on a copy of the nodes.
pub fn start(
    nodes: &[u8],
    copies: &mut [u8],
    transactions: &mut [u8],
    c: u32,
    reply: &mut [u8],
) -> Outcome
    requires { Canonical nodes.now × (length copies.old ≡ copies_size) × KeptTransactions transactions.old × (c < 65536) ×
        (length reply.old ≡ reply_size) }
    ensures { Does
        (lent (some nodes.now) (some copies.old) none (some transactions.old) none reply.old none)
        (λ (w : World). starting w c)
        (lent none (some copies.new) none (some transactions.new) none reply.new none) result }
{
    let Some(k) = lowest_free(transactions) else {
        return Err(Errno::NoSpace);
    };
    copy(copies, k * TABLE_SIZE, nodes);
    open(transactions, k, c);
    let end = put_decimal(reply, HEADER_SIZE, (k + 1) as u64);
    reply[end] = 0;
    Ok(Done::with_events(end + 1 - HEADER_SIZE, 0))
}

// Whether a connection holds an open transaction of that id.
pub fn is_held(transactions: &[u8], c: u32, tx: u32) -> bool
    requires { KeptTransactions transactions.now }
    ensures { HeldOr transactions.now c tx result }
{
    if tx == 0 {
        return false;
    }
    if 3 < tx {
        return false;
    }
    held(transactions, (tx - 1) as usize, c)
}

// Closes the open transaction in place k; where it has a change, all others become stale.
fn close_committed(transactions: &mut [u8], k: usize)
    requires { OpenTransaction transactions.old k }
    ensures { transactions.new ≡ transactions_bytes
        (staled_if (not (is_empty (transaction_of transactions.old k).changes)) (set (transactions_of transactions.old) k none)) }
{
    if transactions::places::changes(transactions, k) == 0 {
        close(transactions, k);
        return;
    }
    close(transactions, k);
    stale_all(transactions);
}

// Takes the copy of the open transaction in place k as the store, and enters who hears its changes.
fn commit(
    nodes: &mut [u8],
    copies: &[u8],
    watches: &[u8],
    transactions: &mut [u8],
    k: usize,
    reply: &mut [u8],
    events: &mut [u8],
) -> Outcome
    requires { Committable nodes.old copies.now watches.now transactions.old reply.old events.old × OpenTransaction transactions.old k }
    ensures { Does
        (lent (some nodes.old) (some copies.now) (some watches.now) (some transactions.old) none
        reply.old (some events.old))
        (λ (w : World). committing w k (transaction_of transactions.old k))
        (lent (some nodes.new) none none (some transactions.new) none reply.new (some events.new)) result }
{
    let from = k * TABLE_SIZE;
    let copied = &copies[from..from + TABLE_SIZE];
    let n = changes(nodes, copied, watches, transactions, k, events);
    copy(nodes, 0, copied);
    close_committed(transactions, k);
    Ok(Done::with_events(okay(reply), n))
}

// Ends a connection's transaction; a commit of one that is stale is told to try again.
pub fn end(
    nodes: &mut [u8],
    copies: &[u8],
    watches: &[u8],
    transactions: &mut [u8],
    c: u32,
    tx: u32,
    commits: bool,
    reply: &mut [u8],
    events: &mut [u8],
) -> Outcome
    requires { Committable nodes.old copies.now watches.now transactions.old reply.old events.old }
    ensures { Does
        (lent (some nodes.old) (some copies.now) (some watches.now) (some transactions.old) none
        reply.old (some events.old))
        (λ (w : World). ending w c tx commits)
        (lent (some nodes.new) none none (some transactions.new) none reply.new (some events.new)) result }
{
    if !is_held(transactions, c, tx) {
        return Err(Errno::NoEntry);
    }
    let k = (tx - 1) as usize;
    if !commits {
        close(transactions, k);
        return Ok(Done::with_events(okay(reply), 0));
    }
    if stale(transactions, k) {
        close(transactions, k);
        return Err(Errno::Again);
    }
    commit(nodes, copies, watches, transactions, k, reply, events)
}
