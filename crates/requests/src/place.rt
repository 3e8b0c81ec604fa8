// Requests of a place that is watched.
ghost use Rattle.std.specs.Prelude.{None, ◌≡◌, not, ◌&&◌, ◌+◌, ◌≤◌, ◌<◌, length};
ghost use Rattle.std.proofs.Math.Option.{none, some};
ghost use Rattle.rules.specs.Size.{reply_size, events_size, longest_payload};
ghost use Rattle.rules.specs.Domain.{is_control};
ghost use Rattle.rules.specs.Event.{place_text};
ghost use Rattle.rules.specs.World.{World, for_place, watching, unwatching};
ghost use Rattle.octets.specs.Numbers.{Put};
ghost use Rattle.octets.specs.Options.{meant};
ghost use Rattle.payload.specs.Strings.{part};
ghost use Rattle.payload.specs.Meaning.{place_at, DepthSound, PathSound, WatchSound};
ghost use Rattle.domains.specs.Entry.{entry_or};
ghost use Rattle.watches.specs.Watch.{KeptWatches};
ghost use Rattle.senders.specs.Speaks.{Speaks};
ghost use Rattle.replies.specs.Does.{lent, Does};
ghost use Rattle.requests.specs.Place.{is_special, is_relative};

use crate::path::{PATH_ROOM, full_path};
use handlers::watching::{unwatch, watch};
use octets::parts::copy;
use paths::answer::Form;
use payload::answer::Path;
use replies::kinds::{Errno, Outcome};
use senders::{Sender, is_control};

// Whether a path is an event's name.
fn is_special(form: Form) -> bool
    ensures { result ≡ is_special form }
{
    form == Form::Special
}

fn is_relative(form: Form) -> bool
    ensures { result ≡ is_relative form }
{
    form == Form::Relative
}

// Whether a domain other than the control domain names an event.
fn is_foreign(special: bool, domain: u32) -> bool
    ensures { result ≡ (special && not (is_control domain)) }
{
    if special {
        return !is_control(domain);
    }
    false
}

// A depth of up to 255, in a byte.
fn depth_of(depth: Option<u32>) -> Option<u8>
    requires { DepthSound depth }
    ensures { (meant result ≡ meant depth) × (entry_or 0 (meant result) < 256) }
{
    let k = depth?;
    Some((k % 256) as u8)
}

// Puts the place that a domain gave in a payload, a full path or an event's name, to the front of a buffer, and gives its length.
fn place_text(s: &[u8], path: Path, domain: u32, into: &mut [u8]) -> usize
    requires { PathSound s.now path × (length s.now + 35 ≤ length into.old) }
    ensures { Put 0 (place_text (place_at domain s.now path)) into.old into.new result }
{
    let end = path.end;
    if is_special(path.form) {
        copy(into, 0, &s[..end]);
        return end;
    }
    full_path(s, path, domain, into)
}

// A sender's WATCH of a place in its payload, with the token from `start` to `end`.
pub fn watch_place(
    watches: &mut [u8],
    sender: Sender,
    s: &[u8],
    path: Path,
    start: usize,
    end: usize,
    depth: Option<u32>,
    reply: &mut [u8],
    events: &mut [u8],
) -> Outcome
    requires { Speaks sender × (sender.connection < 65536) × KeptWatches watches.old × WatchSound s.now path start end depth ×
        (length s.now ≤ longest_payload) × (length reply.old ≡ reply_size) × (length events.old ≡ events_size) }
    ensures { Does
        (lent none none (some watches.old) none none reply.old (some events.old))
        (λ (w : World). for_place w sender.connection (place_at sender.domain s.now path)
        (watching w sender.connection (place_at sender.domain s.now path) (part start end s.now) (meant depth)))
        (lent none none (some watches.new) none none reply.new (some events.new)) result }
{
    let special = is_special(path.form);
    if is_foreign(special, sender.domain) {
        return Err(Errno::Access);
    }
    let relative = is_relative(path.form);
    let mut text = [0u8; PATH_ROOM];
    let n = place_text(s, path, sender.domain, &mut text);
    watch(
        watches,
        sender.connection,
        &text[..n],
        special,
        relative,
        depth_of(depth),
        &s[start..end],
        reply,
        events,
    )
}

// A sender's UNWATCH of a place in its payload, with the token from `start` to `end`.
pub fn unwatch_place(
    watches: &mut [u8],
    sender: Sender,
    s: &[u8],
    path: Path,
    start: usize,
    end: usize,
    reply: &mut [u8],
) -> Outcome
    requires { Speaks sender × KeptWatches watches.old × WatchSound s.now path start end None × (length s.now ≤ longest_payload) ×
        (length reply.old ≡ reply_size) }
    ensures { Does
        (lent none none (some watches.old) none none reply.old none)
        (λ (w : World). for_place w sender.connection (place_at sender.domain s.now path)
        (unwatching w sender.connection (place_at sender.domain s.now path) (part start end s.now)))
        (lent none none (some watches.new) none none reply.new none) result }
{
    if is_foreign(is_special(path.form), sender.domain) {
        return Err(Errno::Access);
    }
    let mut text = [0u8; PATH_ROOM];
    let n = place_text(s, path, sender.domain, &mut text);
    unwatch(
        watches,
        sender.connection,
        &text[..n],
        &s[start..end],
        reply,
    )
}
