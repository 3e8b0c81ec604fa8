// A node request on the store, or in a transaction on its copy.
ghost use Rattle.std.specs.Prelude.{◌≡◌, true, ◌-◌, ◌<◌, ◌≤◌, length, set};
ghost use Rattle.std.proofs.Math.Option.{none, some};
ghost use Rattle.rules.specs.Size.{reply_size, events_size, longest_path, deepest};
ghost use Rattle.rules.specs.Path.{is_full, names_in};
ghost use Rattle.rules.specs.Node.{Table};
ghost use Rattle.rules.specs.Answer.{answer};
ghost use Rattle.rules.specs.Event.{hears, mask_of};
ghost use Rattle.rules.specs.Layout.{table_of, watches_of, transactions_of, transactions_bytes};
ghost use Rattle.rules.specs.Sound.{sound_table};
ghost use Rattle.rules.specs.World as W;
ghost use Rattle.rules.specs.World.{World, copy_of};
ghost use Rattle.transactions.specs.Transaction.{KeptTransactions, transaction_of, change_given, changed_by, RoomForChange};
ghost use Rattle.events.specs.Records.{Mask};
ghost use Rattle.events.specs.Stores.{Store, happened, NewAbove};
ghost use Rattle.payload.specs.Meaning.{ask_meant};
ghost use Rattle.replies.specs.Framed.{Told};
ghost use Rattle.replies.specs.Handled.{reply_of, with_events};
ghost use Rattle.replies.specs.Does.{lent, Does};
ghost use Rattle.handlers.specs.Asking.{Asking, OnStore, Hearing, Changed, InCopy, ninth_reply};

use events::changes::change_since;
use events::masks::in_store;
use nodes::answers::answer;
use nodes::kinds::Effect;
use octets::parts::copy;
use octets::sizes::{MOST_CHANGES, TABLE_SIZE};
use payload::answer::Ask;
use replies::kinds::{Done, Errno, Outcome};
use transactions::changes::{add_change, stale_all};
use transactions::places::changes;

// The mask of those that hear, in the store as it stands, a change that a request would make; a request that only looks makes none.
fn hearing(ask: Ask, nodes: &[u8], watches: &[u8], path: &[u8]) -> u32
    requires { Store nodes.now watches.now × (is_full path.now ≡ true) }
    ensures { Hearing ask (table_of nodes.now) (watches_of watches.now) path.now result }
{
    match ask {
        Ask::Directory | Ask::Read | Ask::GetPerms => 0,
        Ask::Write(_) | Ask::Mkdir | Ask::SetPerms(_) => in_store(nodes, watches, path, false),
        Ask::Rm => in_store(nodes, watches, path, true),
    }
}

// Makes all open transactions stale after a change of the store, and enters who hears it, given those that heard it in the store before; answers
// how many records there are.
fn after_change(
    heard: u32,
    nodes: &[u8],
    watches: &[u8],
    transactions: &mut [u8],
    path: &[u8],
    removed: bool,
    parents: usize,
    events: &mut [u8],
) -> usize
    requires { Store nodes.now watches.now × KeptTransactions transactions.old × (is_full path.now ≡ true) × (length path.now ≤ longest_path) ×
        (parents ≤ length (names_in path.now) - 1) × (parents < deepest) × (length events.old ≡ events_size) }
    ensures { (before : Table) → Mask (mask_of (hears before before (happened removed path.now)) (watches_of watches.now)) heard →
        NewAbove before removed parents path.now →
        Changed before nodes.now watches.now transactions.old (change_given removed parents path.now)
        events.old transactions.new events.new result }
{
    stale_all(transactions);
    change_since(heard, nodes, watches, path, removed, parents, events)
}

// A domain's request on the store; s is its payload.
pub fn on_store(
    nodes: &mut [u8],
    watches: &[u8],
    transactions: &mut [u8],
    domain: u32,
    ask: Ask,
    path: &[u8],
    s: &[u8],
    reply: &mut [u8],
    events: &mut [u8],
) -> Outcome
    requires { OnStore nodes.old watches.now transactions.old reply.old events.old × Asking domain ask path.now s.now }
    ensures { Does
        (lent (some nodes.old) none (some watches.now) (some transactions.old) none reply.old
        (some events.old))
        (λ (w : World). W.on_store w (answer domain (ask_meant s.now ask) (names_in path.now) w.nodes))
        (lent (some nodes.new) none none (some transactions.new) none reply.new (some events.new)) result }
{
    let heard = hearing(ask, nodes, watches, path);
    let given = answer(nodes, domain, ask, path, s, reply)?;
    match given.effect {
        Effect::Nothing => Ok(Done::with_events(given.length, 0)),
        Effect::Wrote(parents) => {
            let n = after_change(
                heard,
                nodes,
                watches,
                transactions,
                path,
                false,
                parents,
                events,
            );
            Ok(Done::with_events(given.length, n))
        }
        Effect::Removed => {
            let n = after_change(heard, nodes, watches, transactions, path, true, 0, events);
            Ok(Done::with_events(given.length, n))
        }
    }
}

// A domain's request in a transaction that has eight changes, on its copy: one more is refused.
fn in_full_transaction(
    copied: &[u8],
    domain: u32,
    ask: Ask,
    path: &[u8],
    s: &[u8],
    reply: &mut [u8],
) -> Outcome
    requires { (sound_table copied.now ≡ true) × Asking domain ask path.now s.now × (length reply.old ≡ reply_size) }
    ensures { Told
        (ninth_reply (answer domain (ask_meant s.now ask) (names_in path.now) (table_of copied.now)))
        (reply_of result) reply.entry.now reply.exit.now × (result ≡ with_events (reply_of result) 0) }
{
    let mut t = [0u8; TABLE_SIZE];
    copy(&mut t, 0, copied);
    let given = answer(&mut t, domain, ask, path, s, reply)?;
    match given.effect {
        Effect::Nothing => Ok(Done::with_events(given.length, 0)),
        Effect::Wrote(_) => Err(Errno::NoSpace),
        Effect::Removed => Err(Errno::NoSpace),
    }
}

// Enters a change in the transaction in place k; the request gave a payload of that length.
fn enter_change(
    transactions: &mut [u8],
    k: usize,
    removed: bool,
    parents: usize,
    path: &[u8],
    length: usize,
) -> Done
    requires { RoomForChange transactions.old k parents path.now }
    ensures { (transactions.new ≡ transactions_bytes (set (transactions_of transactions.old) k
        (some (changed_by (transaction_of transactions.old k) removed parents path.now)))) ×
        (result ≡ record { length = «length»; events = 0; page = 0; channel = 0 }) }
{
    add_change(transactions, k, removed, parents, path);
    Done::with_events(length, 0)
}

// A domain's request in the transaction in place k; s is its payload.
pub fn in_transaction(
    copies: &mut [u8],
    transactions: &mut [u8],
    k: usize,
    domain: u32,
    ask: Ask,
    path: &[u8],
    s: &[u8],
    reply: &mut [u8],
) -> Outcome
    requires { InCopy copies.old transactions.old k reply.old × Asking domain ask path.now s.now }
    ensures { Does
        (lent none (some copies.old) none (some transactions.old) none reply.old none)
        (λ (w : World). W.in_transaction w k (transaction_of transactions.old k)
        (answer domain (ask_meant s.now ask) (names_in path.now) (copy_of w k)))
        (lent none (some copies.new) none (some transactions.new) none reply.new none) result }
{
    let from = k * TABLE_SIZE;
    let end = from + TABLE_SIZE;
    if MOST_CHANGES <= changes(transactions, k) {
        return in_full_transaction(&copies[from..end], domain, ask, path, s, reply);
    }
    let given = answer(&mut copies[from..end], domain, ask, path, s, reply)?;
    let length = given.length;
    match given.effect {
        Effect::Nothing => Ok(Done::with_events(length, 0)),
        Effect::Wrote(parents) => Ok(enter_change(transactions, k, false, parents, path, length)),
        Effect::Removed => Ok(enter_change(transactions, k, true, 0, path, length)),
    }
}
