// One request from one sender, whatever it is.
ghost use Rattle.rules.specs.Payload.{parse};
ghost use Rattle.rules.specs.World.{World};
ghost use Rattle.rules.specs.Call.{outcome_of};
ghost use Rattle.payload.specs.Meaning.{meant, Sound};
ghost use Rattle.replies.specs.Does.{tables, all_lent, Does};
ghost use Rattle.requests.specs.Kinds.{AsksNoNode};
ghost use Rattle.requests.specs.Served.{Served};

use crate::control::{introduce_by, release_by};
use crate::node::node_request;
use crate::place::{unwatch_place as unwatch, watch_place as watch};
use handlers::about::{domain_path, is_introduced};
use handlers::transacting::{end as end_transaction, start as start_transaction};
use handlers::watching::reset;
use payload::answer::Request;
use payload::parse::parse;
use replies::kinds::{Done, Errno, Outcome};
use senders::Sender;

// What a sender's message of a type, a transaction and a payload does to the tables.
pub fn handle(
    nodes: &mut [u8],
    copies: &mut [u8],
    watches: &mut [u8],
    transactions: &mut [u8],
    domains: &mut [u8],
    sender: Sender,
    kind: u32,
    tx: u32,
    s: &[u8],
    reply: &mut [u8],
    events: &mut [u8],
) -> Outcome
    requires { Served (tables nodes.old copies.old watches.old transactions.old domains.old) sender reply.old events.old s.now }
    ensures { Does
        (all_lent nodes.old copies.old watches.old transactions.old domains.old
        reply.old events.old)
        (λ (w : World). outcome_of w sender.connection tx (parse sender.connection kind tx s.now))
        (all_lent nodes.new copies.new watches.new transactions.new domains.new
        reply.new events.new) result }
{
    let r = parse(kind, tx, s);
    match r {
        Request::Ask(ask, path) => node_request(
            nodes,
            copies,
            watches,
            transactions,
            sender,
            tx,
            ask,
            path,
            s,
            reply,
            events,
        ),
        _ => other_request(
            nodes,
            copies,
            watches,
            transactions,
            domains,
            sender,
            tx,
            r,
            s,
            reply,
            events,
        ),
    }
}

// What a request that asks nothing of a node does to the tables.
fn other_request(
    nodes: &mut [u8],
    copies: &mut [u8],
    watches: &mut [u8],
    transactions: &mut [u8],
    domains: &mut [u8],
    sender: Sender,
    tx: u32,
    r: Request,
    s: &[u8],
    reply: &mut [u8],
    events: &mut [u8],
) -> Outcome
    requires { Served (tables nodes.old copies.old watches.old transactions.old domains.old) sender reply.old events.old s.now ×
        Sound s.now r × AsksNoNode r }
    ensures { Does
        (all_lent nodes.old copies.old watches.old transactions.old domains.old
        reply.old events.old)
        (λ (w : World). outcome_of w sender.connection tx (meant sender.domain s.now r))
        (all_lent nodes.new copies.new watches.new transactions.new domains.new
        reply.new events.new) result }
{
    let c = sender.connection;
    match r {
        Request::Invalid => Err(Errno::Invalid),
        Request::Watch {
            path,
            start,
            end,
            depth,
        } => watch(watches, sender, s, path, start, end, depth, reply, events),
        Request::Unwatch { path, start, end } => unwatch(
            watches, sender, s, path, start, end, reply,
        ),
        Request::Start => start_transaction(nodes, copies, transactions, c, reply),
        Request::End(commits) => end_transaction(
            nodes,
            copies,
            watches,
            transactions,
            c,
            tx,
            commits,
            reply,
            events,
        ),
        Request::Introduce {
            domain,
            page,
            channel,
        } => introduce_by(
            watches, domains, sender, domain, page, channel, reply, events,
        ),
        Request::Release(domain) => release_by(
            nodes,
            watches,
            transactions,
            domains,
            sender,
            domain,
            reply,
            events,
        ),
        Request::DomainPath(domain) => Ok(Done::with_events(domain_path(domain, reply), 0)),
        Request::IsIntroduced(domain) => {
            Ok(Done::with_events(is_introduced(domains, domain, reply), 0))
        }
        Request::Reset => reset(watches, transactions, c, reply),
        _ => Err(Errno::NoSystem),
    }
}
