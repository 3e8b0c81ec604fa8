// Requests that the control domain alone may make.
ghost use Rattle.std.specs.Prelude.{◌≡◌, ◌≤◌, length};
ghost use Rattle.std.proofs.Math.Option.{none, some};
ghost use Rattle.rules.specs.Size.{reply_size, events_size, last_domain};
ghost use Rattle.rules.specs.World.{World, for_control, introducing, releasing};
ghost use Rattle.senders.specs.Speaks.{Speaks};
ghost use Rattle.domains.specs.Kept.{KeptDomains};
ghost use Rattle.watches.specs.Watch.{KeptWatches};
ghost use Rattle.replies.specs.Does.{lent, Does};
ghost use Rattle.handlers.specs.Releasing.{Releasable};

use handlers::introducing::{introduce, release};
use replies::kinds::{Errno, Outcome};
use senders::{Sender, is_control};

// A sender's INTRODUCE.
pub fn introduce_by(
    watches: &[u8],
    domains: &mut [u8],
    sender: Sender,
    domain: u32,
    page: u64,
    channel: u32,
    reply: &mut [u8],
    events: &mut [u8],
) -> Outcome
    requires { Speaks sender × KeptWatches watches.now × KeptDomains domains.old × (domain ≤ last_domain) × (length reply.old ≡ reply_size) ×
        (length events.old ≡ events_size) }
    ensures { Does
        (lent none none (some watches.now) none (some domains.old) reply.old (some events.old))
        (λ (w : World). for_control w sender.connection (introducing w domain page channel))
        (lent none none none none (some domains.new) reply.new (some events.new)) result }
{
    if !is_control(sender.domain) {
        return Err(Errno::Access);
    }
    introduce(watches, domains, domain, page, channel, reply, events)
}

// A sender's RELEASE.
pub fn release_by(
    nodes: &mut [u8],
    watches: &mut [u8],
    transactions: &mut [u8],
    domains: &mut [u8],
    sender: Sender,
    domain: u32,
    reply: &mut [u8],
    events: &mut [u8],
) -> Outcome
    requires { Speaks sender × Releasable nodes.old watches.old transactions.old domains.old events.old × (1 ≤ domain) ×
        (domain ≤ last_domain) × (length reply.old ≡ reply_size) }
    ensures { Does
        (lent (some nodes.old) none (some watches.old) (some transactions.old) (some domains.old)
        reply.old (some events.old))
        (λ (w : World). for_control w sender.connection (releasing w domain))
        (lent (some nodes.new) none (some watches.new) (some transactions.new) (some domains.new)
        reply.new (some events.new)) result }
{
    if !is_control(sender.domain) {
        return Err(Errno::Access);
    }
    release(nodes, watches, transactions, domains, domain, reply, events)
}
