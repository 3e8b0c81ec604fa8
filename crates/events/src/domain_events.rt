// The records of domains that come and go, and of a new watch.
ghost use Rattle.std.specs.Prelude.{◌≡◌, ◌≤◌, length};
ghost use Rattle.rules.specs.Size.{last_domain, events_size};
ghost use Rattle.rules.specs.Event.{heard_of, first_heard};
ghost use Rattle.rules.specs.Layout.{watches_of};
ghost use Rattle.watches.specs.Watch.{KeptWatches, watch_of, TakenWatch};
ghost use Rattle.events.specs.Records.{Recorded, Room};
ghost use Rattle.events.specs.Stores.{event_name};

use crate::masks::{of_event, one_watch};
use crate::record::{keep, put};
use octets::written::put_decimal;
use watches::places::path;

// Records that domain d was released, or introduced, behind n records, if some watch is on that; answers how many records there are then.
pub fn of_domain(released: bool, d: u32, watches: &[u8], n: usize, events: &mut [u8]) -> usize
    requires { (d ≤ last_domain) × KeptWatches watches.now × Room events.old n 1 }
    ensures { Recorded n (heard_of (event_name released) d (watches_of watches.now)) events.old events.new result }
{
    let mut text = [b'/'; 21];
    let end = put_decimal(&mut text, 1, d as u64);
    keep(events, n, of_event(watches, released), &text[..end])
}

// Records the first event of the watch in place k as the only one.
pub fn first(watches: &[u8], k: usize, events: &mut [u8]) -> usize
    requires { TakenWatch watches.now k × (length events.old ≡ events_size) }
    ensures { Recorded 0 (first_heard k (watch_of watches.now k).place (watches_of watches.now)) events.old
        events.new result }
{
    put(events, 0, one_watch(watches, k), path(watches, k))
}
