// A node request of a payload.
ghost use Rattle.std.proofs.Math.Option.{none, some};
ghost use Rattle.std.specs.Prelude.{◌≤◌, length};
ghost use Rattle.rules.specs.Size.{last_domain, longest_payload};
ghost use Rattle.rules.specs.Path.{names_in};
ghost use Rattle.rules.specs.World as W;
ghost use Rattle.rules.specs.World.{World};
ghost use Rattle.senders.specs.Speaks.{Speaks};
ghost use Rattle.payload.specs.Meaning.{ask_meant, names_at, AskedSound};
ghost use Rattle.replies.specs.Does.{lent, Does};
ghost use Rattle.handlers.specs.Asking.{Asking};
ghost use Rattle.handlers.specs.Transacting.{Committable};

use crate::path::{PATH_ROOM, full_path};
use handlers::asking::{in_transaction, on_store};
use handlers::transacting::is_held;
use paths::answer::Form;
use payload::answer::{Ask, Path};
use replies::kinds::{Errno, Outcome};
use senders::Sender;

// What a sender asks for a full path: on the store, or in its transaction.
fn asked(
    nodes: &mut [u8],
    copies: &mut [u8],
    watches: &[u8],
    transactions: &mut [u8],
    sender: Sender,
    tx: u32,
    ask: Ask,
    path: &[u8],
    s: &[u8],
    reply: &mut [u8],
    events: &mut [u8],
) -> Outcome
    requires { Speaks sender × Committable nodes.old copies.old watches.now transactions.old reply.old events.old ×
        Asking sender.domain ask path.now s.now }
    ensures { Does
        (lent (some nodes.old) (some copies.old) (some watches.now) (some transactions.old) none
        reply.old (some events.old))
        (λ (w : World). W.asked w sender.connection tx (ask_meant s.now ask) (names_in path.now))
        (lent (some nodes.new) (some copies.new) none (some transactions.new) none reply.new
        (some events.new)) result }
{
    let domain = sender.domain;
    if tx == 0 {
        return on_store(
            nodes,
            watches,
            transactions,
            domain,
            ask,
            path,
            s,
            reply,
            events,
        );
    }
    if !is_held(transactions, sender.connection, tx) {
        return Err(Errno::NoEntry);
    }
    let k = (tx - 1) as usize;
    in_transaction(copies, transactions, k, domain, ask, path, s, reply)
}

// A sender's node request of a payload, whose full path is first put into a buffer.
fn relative_request(
    nodes: &mut [u8],
    copies: &mut [u8],
    watches: &[u8],
    transactions: &mut [u8],
    sender: Sender,
    tx: u32,
    ask: Ask,
    path: Path,
    s: &[u8],
    reply: &mut [u8],
    events: &mut [u8],
) -> Outcome
    requires { Speaks sender × (sender.domain ≤ last_domain) × AskedSound s.now ask path × (length s.now ≤ longest_payload) ×
        Committable nodes.old copies.old watches.now transactions.old reply.old events.old }
    ensures { Does
        (lent (some nodes.old) (some copies.old) (some watches.now) (some transactions.old) none
        reply.old (some events.old))
        (λ (w : World). W.asked w sender.connection tx (ask_meant s.now ask) (names_at sender.domain s.now path))
        (lent (some nodes.new) (some copies.new) none (some transactions.new) none reply.new
        (some events.new)) result }
{
    let mut text = [0u8; PATH_ROOM];
    let n = full_path(s, path, sender.domain, &mut text);
    asked(
        nodes,
        copies,
        watches,
        transactions,
        sender,
        tx,
        ask,
        &text[..n],
        s,
        reply,
        events,
    )
}

// A sender's node request of a payload. An absolute path is used where it lies.
pub fn node_request(
    nodes: &mut [u8],
    copies: &mut [u8],
    watches: &[u8],
    transactions: &mut [u8],
    sender: Sender,
    tx: u32,
    ask: Ask,
    path: Path,
    s: &[u8],
    reply: &mut [u8],
    events: &mut [u8],
) -> Outcome
    requires { Speaks sender × (sender.domain ≤ last_domain) × AskedSound s.now ask path × (length s.now ≤ longest_payload) ×
        Committable nodes.old copies.old watches.now transactions.old reply.old events.old }
    ensures { Does
        (lent (some nodes.old) (some copies.old) (some watches.now) (some transactions.old) none
        reply.old (some events.old))
        (λ (w : World). W.asked w sender.connection tx (ask_meant s.now ask) (names_at sender.domain s.now path))
        (lent (some nodes.new) (some copies.new) none (some transactions.new) none reply.new
        (some events.new)) result }
{
    let form = path.form;
    let end = path.end;
    match form {
        Form::Absolute => asked(
            nodes,
            copies,
            watches,
            transactions,
            sender,
            tx,
            ask,
            &s[..end],
            s,
            reply,
            events,
        ),
        _ => relative_request(
            nodes,
            copies,
            watches,
            transactions,
            sender,
            tx,
            ask,
            path,
            s,
            reply,
            events,
        ),
    }
}
