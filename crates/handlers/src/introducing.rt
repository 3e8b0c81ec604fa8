// INTRODUCE and RELEASE.
ghost use Rattle.std.specs.Prelude.{◌≡◌, ◌≤◌, length};
ghost use Rattle.std.proofs.Math.Option.{none, some};
ghost use Rattle.rules.specs.Size.{reply_size, events_size, last_domain};
ghost use Rattle.rules.specs.World.{World, introducing, releasing};
ghost use Rattle.domains.specs.Kept.{KeptDomains};
ghost use Rattle.watches.specs.Watch.{KeptWatches};
ghost use Rattle.transactions.specs.Transaction.{KeptTransactions};
ghost use Rattle.replies.specs.Does.{lent, Does};
ghost use Rattle.handlers.specs.Releasing.{Forgotten, Releasable, Released};

use domains::changes::{add, remove};
use domains::places::{introduced, lowest_free};
use events::changes::removals;
use events::domain_events::of_domain;
use lookup::owned::owned;
use making::removing::remove_all;
use octets::parts::copy;
use octets::sizes::{SLOTS, TABLE_SIZE};
use replies::kinds::{Done, Errno, Outcome, okay};
use transactions::changes::{remove_of as end_all_of, stale_all};
use watches::changes::remove_of;

// Makes a domain known, with its page and channel, and enters who hears of it.
pub fn introduce(
    watches: &[u8],
    domains: &mut [u8],
    domain: u32,
    page: u64,
    channel: u32,
    reply: &mut [u8],
    events: &mut [u8],
) -> Outcome
    requires { KeptWatches watches.now × KeptDomains domains.old × (domain ≤ last_domain) × (length reply.old ≡ reply_size) ×
        (length events.old ≡ events_size) }
    ensures { Does
        (lent none none (some watches.now) none (some domains.old) reply.old (some events.old))
        (λ (w : World). introducing w domain page channel)
        (lent none none none none (some domains.new) reply.new (some events.new)) result }
{
    if introduced(domains, domain) {
        return Err(Errno::Exists);
    }
    let Some(k) = lowest_free(domains) else {
        return Err(Errno::NoSpace);
    };
    add(domains, k, domain);
    let events = of_domain(false, domain, watches, 0, events);
    Ok(Done {
        length: okay(reply),
        events,
        page,
        channel,
    })
}

// Drops a domain's watches and transactions and forgets it; where a node was removed, all other transactions become stale.
fn forget(
    watches: &mut [u8],
    transactions: &mut [u8],
    domains: &mut [u8],
    domain: u32,
    removed: bool,
)
    requires { KeptWatches watches.old × KeptTransactions transactions.old × KeptDomains domains.old }
    ensures { Forgotten watches.old transactions.old domains.old domain removed watches.new
        transactions.new domains.new }
{
    remove_of(watches, domain);
    remove(domains, domain);
    end_all_of(transactions, domain);
    if removed {
        stale_all(transactions);
    }
}

// Removes every node that a domain owns with all below, forgets the domain, and enters who hears of it.
fn clear_out(
    nodes: &mut [u8],
    watches: &mut [u8],
    transactions: &mut [u8],
    domains: &mut [u8],
    domain: u32,
    events: &mut [u8],
) -> usize
    requires { Releasable nodes.old watches.old transactions.old domains.old events.old × (1 ≤ domain) × (domain ≤ last_domain) }
    ensures { Released nodes.old watches.old transactions.old domains.old domain events.old
        nodes.new watches.new transactions.new domains.new events.new result }
{
    let mut before = [0u8; TABLE_SIZE];
    copy(&mut before, 0, nodes);
    let mut list = [0u8; SLOTS];
    let n = owned(nodes, domain, &mut list);
    remove_all(nodes, &list, n);
    forget(watches, transactions, domains, domain, n != 0);
    let count = removals(&before, nodes, watches, &list, n, events);
    of_domain(true, domain, watches, count, events)
}

// Releases a domain.
pub fn release(
    nodes: &mut [u8],
    watches: &mut [u8],
    transactions: &mut [u8],
    domains: &mut [u8],
    domain: u32,
    reply: &mut [u8],
    events: &mut [u8],
) -> Outcome
    requires { Releasable nodes.old watches.old transactions.old domains.old events.old × (1 ≤ domain) × (domain ≤ last_domain) ×
        (length reply.old ≡ reply_size) }
    ensures { Does
        (lent (some nodes.old) none (some watches.old) (some transactions.old) (some domains.old)
        reply.old (some events.old))
        (λ (w : World). releasing w domain)
        (lent (some nodes.new) none (some watches.new) (some transactions.new) (some domains.new)
        reply.new (some events.new)) result }
{
    if !introduced(domains, domain) {
        return Err(Errno::NoEntry);
    }
    let n = clear_out(nodes, watches, transactions, domains, domain, events);
    Ok(Done::with_events(okay(reply), n))
}
