// Whether a watch hears an event.
ghost use Rattle.std.specs.Prelude.{◌≡◌, true, ◌<◌, get_or};
ghost use Rattle.std.proofs.Math.Option.{none};
ghost use Rattle.rules.specs.Size.{most_watches};
ghost use Rattle.rules.specs.Domain.{domain_of};
ghost use Rattle.rules.specs.Path.{is_full, names_in};
ghost use Rattle.rules.specs.Rights.{readable};
ghost use Rattle.rules.specs.Event.{Watch, deep_enough, hears_at, hears};
ghost use Rattle.rules.specs.Layout.{table_of, watches_of};
ghost use Rattle.rules.specs.Sound.{sound_table};
ghost use Rattle.octets.specs.Options.{meant};
ghost use Rattle.domains.specs.Entry.{passes};
ghost use Rattle.events.specs.Stores.{Store, happened, hears_above};

use lookup::reach::reach;
use lookup::rights::may_read;
use octets::compare::begins;
use paths::relation::beyond;
use watches::places::{depth, domain, used};

// Whether a full path is there, and a domain may read it.
fn readable(t: &[u8], domain: u32, path: &[u8]) -> bool
    requires { (sound_table t.now ≡ true) × (is_full path.now ≡ true) }
    ensures { result ≡ readable (table_of t.now) domain (names_in path.now) }
{
    let reached = reach(t, path);
    if reached.at < path.len() {
        return false;
    }
    may_read(t, reached.slot, domain)
}

fn deep_enough(depth: Option<u8>, levels: usize) -> bool
    ensures { result ≡ deep_enough (meant depth) levels }
{
    depth.is_none_or(|most| levels <= usize::from(most))
}

// Whether a watch of a domain on the full path `own` hears the removal of a path above its own.
fn hears_above(t: &[u8], domain: u32, own: &[u8], path: &[u8], removed: bool) -> bool
    requires { (sound_table t.now ≡ true) × (is_full own.now ≡ true) × (is_full path.now ≡ true) }
    ensures { result ≡ hears_above (table_of t.now) (table_of t.now) domain (names_in own.now)
        (names_in path.now) removed }
{
    if !removed {
        return false;
    }
    beyond(path, own).is_some() && readable(t, domain, own)
}

// Whether a watch of a domain on the full path `own` hears an event on a full path.
fn hears_on(
    t: &[u8],
    domain: u32,
    own: &[u8],
    depth: Option<u8>,
    path: &[u8],
    removed: bool,
) -> bool
    requires { (sound_table t.now ≡ true) × (is_full own.now ≡ true) × (is_full path.now ≡ true) }
    ensures { (w : Watch) → domain ≡ domain_of w.owner → meant depth ≡ w.depth →
        result ≡ hears_at (table_of t.now) (table_of t.now) w (names_in own.now) (happened removed path.now) }
{
    match beyond(own, path) {
        Some(levels) => deep_enough(depth, levels) && readable(t, domain, path),
        None => hears_above(t, domain, own, path, removed),
    }
}

// Whether place k has a watch that hears an event on a full path, by what its owner may read in one store.
pub fn hears(t: &[u8], watches: &[u8], k: usize, path: &[u8], removed: bool) -> bool
    requires { (k < most_watches) × Store t.now watches.now × (is_full path.now ≡ true) }
    ensures { result ≡ passes (hears (table_of t.now) (table_of t.now) (happened removed path.now))
        (get_or (watches_of watches.now) k none) }
{
    if !used(watches, k) {
        return false;
    }
    let own = watches::places::path(watches, k);
    if !begins(b"/", own) {
        return false;
    }
    hears_on(t, domain(watches, k), own, depth(watches, k), path, removed)
}
