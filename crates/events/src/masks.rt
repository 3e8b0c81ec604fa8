// The watches that an event goes to, as a mask.
ghost use Rattle.std.specs.Prelude.{◌≡◌, ℕ, List, Bool, true, ◌||◌, ◌<◌, get_or};
ghost use Rattle.std.proofs.Math.Option.{none};
ghost use Rattle.rules.specs.Size.{most_watches};
ghost use Rattle.rules.specs.Path.{is_full};
ghost use Rattle.rules.specs.Node.{Table};
ghost use Rattle.rules.specs.Event.{Watch, hears, mask_of, is_event, only_from};
ghost use Rattle.rules.specs.Layout.{table_of, watches_of};
ghost use Rattle.domains.specs.Entry.{passes};
ghost use Rattle.watches.specs.Watch.{KeptWatches};
ghost use Rattle.events.specs.Records.{Mask, Tested, number_bit};
ghost use Rattle.events.specs.Stores.{Store, happened, event_name};

use crate::hearing::hears;
use crate::record::has_bit;
use octets::compare::same;
use octets::sizes::WATCHES;
use watches::places::{path, used};

// The mask with a bit for each place, set where the place passes a test.
fn mask_where<F: Fn(usize) -> bool>(test: F) -> u32
    requires { (k : ℕ) → k < most_watches → F.pre test k }
    ensures { (m : List Bool) → Tested (F.post test) m → Mask m result }
{
    let mut mask: u32 = 0;
    for k in 0..WATCHES {
        mask = mask * 2 + u32::from(test(k));
    }
    mask
}

// Those that heard an event on a full path already, and those that hear it in a store.
fn heard_or_hears(heard: u32, t: &[u8], watches: &[u8], path: &[u8], removed: bool) -> u32
    requires { Store t.now watches.now × (is_full path.now ≡ true) }
    ensures { (f : Watch → Bool) → Mask (mask_of f (watches_of watches.now)) heard →
        Mask (mask_of (λ w. f w || hears (table_of t.now) (table_of t.now) (happened removed path.now) w)
        (watches_of watches.now)) result }
{
    mask_where(|k| has_bit(heard, k) || hears(t, watches, k, path, removed))
}

// Those that hear an event on a full path in one store.
pub fn in_store(t: &[u8], watches: &[u8], path: &[u8], removed: bool) -> u32
    requires { Store t.now watches.now × (is_full path.now ≡ true) }
    ensures { Mask (mask_of (hears (table_of t.now) (table_of t.now) (happened removed path.now))
        (watches_of watches.now)) result }
{
    heard_or_hears(0, t, watches, path, removed)
}

// Those that hear an event on a full path, given those that hear it in the store as it was before.
pub fn of_event_since(heard: u32, after: &[u8], watches: &[u8], path: &[u8], removed: bool) -> u32
    requires { Store after.now watches.now × (is_full path.now ≡ true) }
    ensures { (before : Table) →
        Mask (mask_of (hears before before (happened removed path.now)) (watches_of watches.now)) heard →
        Mask (mask_of (hears before (table_of after.now) (happened removed path.now)) (watches_of watches.now)) result }
{
    heard_or_hears(heard, after, watches, path, removed)
}

// Whether place k has a watch on the event of a release, or of an introduction.
fn is_event(watches: &[u8], k: usize, released: bool) -> bool
    requires { (k < most_watches) × KeptWatches watches.now }
    ensures { result ≡ passes (is_event (event_name released)) (get_or (watches_of watches.now) k none) }
{
    if !used(watches, k) {
        return false;
    }
    let own = path(watches, k);
    if released {
        return same(b"@releaseDomain", own);
    }
    same(b"@introduceDomain", own)
}

// Those on the event of a release, or of an introduction.
pub fn of_event(watches: &[u8], released: bool) -> u32
    requires { KeptWatches watches.now }
    ensures { Mask (mask_of (is_event (event_name released)) (watches_of watches.now)) result }
{
    mask_where(|k| is_event(watches, k, released))
}

// That in place k alone.
pub fn one_watch(watches: &[u8], k: usize) -> u32
    ensures { Mask (only_from k 0 (watches_of watches.now)) result }
{
    mask_where(|i| k == i)
}
