// The request that gives a node other permission entries: SET_PERMS.
ghost use Rattle.std.specs.Prelude.{◌≡◌, ◌≤◌};
ghost use Rattle.rules.specs.Size.{most_entries};
ghost use Rattle.rules.specs.Path.{Names};
ghost use Rattle.rules.specs.Node.{Entry, node_at, with_entries};
ghost use Rattle.rules.specs.Payload.{set_perms};
ghost use Rattle.rules.specs.Answer.{may_set};
ghost use Rattle.rules.specs.Layout.{table_of, table_bytes};
ghost use Rattle.lookup.specs.Rights.{Asked};
ghost use Rattle.payload.specs.Meaning.{entry_meant, kept_at, others_meant, EntriesSound};
ghost use Rattle.nodes.specs.Answers.{Ready, Answered};

use crate::changing::success;
use crate::kinds::{Answer, Effect};
use crate::looking::absent;
use lookup::reach::reach;
use lookup::rights::may_own;
use octets::sizes::MOST_ENTRIES;
use payload::answer::Entries;
use replies::kinds::Errno;
use senders::is_control;
use slots::fields::entry_at;
use slots::writing::put_entries;

// Whether a domain may give slot i entries whose first names an owner.
fn may_set(t: &[u8], i: usize, domain: u32, owner: u32) -> bool
    requires { Asked t.now i }
    ensures { (ns : Names) (o : Entry) → o.domain ≡ owner →
        result ≡ may_set domain ns (table_of t.now) (node_at (table_of t.now) i) o }
{
    if !may_own(t, i, domain) {
        return false;
    }
    if is_control(domain) {
        return true;
    }
    owner == entry_at(t, i, 0).domain
}

// Gives slot i the entries, of which there are four at most.
fn permit(t: &mut [u8], i: usize, entries: Entries)
    requires { Asked t.old i × EntriesSound entries × (entries.count ≤ most_entries) }
    ensures { t.new ≡ table_bytes (with_entries (table_of t.old) i (entry_meant (kept_at entries 0)) (others_meant entries)) }
{
    let [first, second, third, fourth] = entries.kept;
    let access = [first.access, second.access, third.access, fourth.access];
    let domains = [first.domain, second.domain, third.domain, fourth.domain];
    put_entries(t, i, entries.count, &access, &domains);
}

pub fn set_perms(
    t: &mut [u8],
    domain: u32,
    path: &[u8],
    entries: Entries,
    reply: &mut [u8],
) -> Answer
    requires { Ready t.old path.now reply.old domain × EntriesSound entries }
    ensures { Answered domain (set_perms (entry_meant (kept_at entries 0)) (others_meant entries)) path.now t.old t.new
        reply.old reply.new result }
{
    let reached = reach(t, path);
    let slot = reached.slot;
    if reached.at < path.len() {
        return Err(absent(t, slot, domain));
    }
    if !may_set(t, slot, domain, entries.kept[0].domain) {
        return Err(Errno::Access);
    }
    if MOST_ENTRIES < entries.count {
        return Err(Errno::NoSpace);
    }
    permit(t, slot, entries);
    Ok(success(reply, Effect::Wrote(0)))
}
