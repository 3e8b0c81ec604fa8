// The records of changes.
ghost use Rattle.std.specs.Prelude.{◌≡◌, true, map, ◌+◌, ◌-◌, ◌≤◌, ◌<◌, length, take};
ghost use Rattle.rules.specs.Size.{longest_path, deepest, most_records, events_size};
ghost use Rattle.rules.specs.Path.{is_full, names_in};
ghost use Rattle.rules.specs.Node.{Table};
ghost use Rattle.rules.specs.Event.{hears, mask_of, heard_event, heard_change, heard};
ghost use Rattle.rules.specs.Layout.{table_of, watches_of};
ghost use Rattle.rules.specs.Sound.{good_changes};
ghost use Rattle.transactions.specs.Transaction.{change_given, transaction_of, OpenTransaction};
ghost use Rattle.lookup.specs.Children.{AllAsked};
ghost use Rattle.lookup.specs.Rights.{Asked};
ghost use Rattle.events.specs.Records.{Recorded, Room, Mask};
ghost use Rattle.events.specs.Stores.{Store, Stores, happened, NewAbove, heard_parents, removal_of};

use crate::masks::{in_store, of_event_since};
use crate::record::keep;
use octets::sizes::LONGEST_PATH;
use paths::names::above;
use soundness::chain::path_of;
use transactions::places::{parents, path, removed};

// Records an event on a full path behind n records, if some watch hears it, in the store as it was before or after it; answers how many
// records there are then.
fn event_since(
    heard: u32,
    after: &[u8],
    watches: &[u8],
    path: &[u8],
    removed: bool,
    n: usize,
    events: &mut [u8],
) -> usize
    requires { Store after.now watches.now × (is_full path.now ≡ true) × (length path.now ≤ longest_path) × Room events.old n 1 }
    ensures { (before : Table) →
        Mask (mask_of (hears before before (happened removed path.now)) (watches_of watches.now)) heard →
        Recorded n (heard_event before (table_of after.now) (watches_of watches.now) (happened removed path.now))
        events.old events.new result }
{
    let mask = of_event_since(heard, after, watches, path, removed);
    keep(events, n, mask, path)
}

// The same, where the store before stands.
fn event(
    before: &[u8],
    after: &[u8],
    watches: &[u8],
    path: &[u8],
    removed: bool,
    n: usize,
    events: &mut [u8],
) -> usize
    requires { Stores before.now after.now watches.now × (is_full path.now ≡ true) × (length path.now ≤ longest_path) ×
        Room events.old n 1 }
    ensures { Recorded n (heard_event (table_of before.now) (table_of after.now) (watches_of watches.now)
        (happened removed path.now)) events.old events.new result }
{
    let heard = in_store(before, watches, path, removed);
    event_since(heard, after, watches, path, removed, n, events)
}

// Records the events of a change of a full path behind n records, those of the parents that it created first, topmost first; answers how many
// records there are then.
fn change(
    before: &[u8],
    after: &[u8],
    watches: &[u8],
    changed: &[u8],
    removed: bool,
    parents: usize,
    n: usize,
    events: &mut [u8],
) -> usize
    requires { Stores before.now after.now watches.now × (is_full changed.now ≡ true) × (length changed.now ≤ longest_path) ×
        (parents ≤ length (names_in changed.now) - 1) × Room events.old n (parents + 1) }
    ensures { Recorded n (heard_change (table_of before.now) (table_of after.now) (watches_of watches.now)
        (change_given removed parents changed.now)) events.old events.new result }
{
    let mut count = n;
    for levels in (1..parents + 1).rev() {
        let end = above(changed, levels);
        let parent = &changed[..end];
        count = event(before, after, watches, parent, removed, count, events);
    }
    event(before, after, watches, changed, removed, count, events)
}

// Records the events of the parents that a change created, topmost first, from the first record on, as the store after the change tells; answers
// how many records there are.
fn created(after: &[u8], watches: &[u8], path: &[u8], parents: usize, events: &mut [u8]) -> usize
    requires { Store after.now watches.now × (is_full path.now ≡ true) × (length path.now ≤ longest_path) ×
        (parents ≤ length (names_in path.now) - 1) × Room events.old 0 parents }
    ensures { Recorded 0 (heard_parents (table_of after.now) (watches_of watches.now) parents path.now)
        events.old events.new result }
{
    let mut n = 0;
    for levels in (1..parents + 1).rev() {
        let end = above(path, levels);
        let parent = &path[..end];
        n = keep(events, n, in_store(after, watches, parent, false), parent);
    }
    n
}

// Records the events of a change of a full path from the first record on, given those that hear the path's own in the store as it was before;
// answers how many records there are.
pub fn change_since(
    heard: u32,
    after: &[u8],
    watches: &[u8],
    changed: &[u8],
    removed: bool,
    parents: usize,
    events: &mut [u8],
) -> usize
    requires { Store after.now watches.now × (is_full changed.now ≡ true) × (length changed.now ≤ longest_path) ×
        (parents ≤ length (names_in changed.now) - 1) × (parents < deepest) × (length events.old ≡ events_size) }
    ensures { (before : Table) →
        Mask (mask_of (hears before before (happened removed changed.now)) (watches_of watches.now)) heard →
        NewAbove before removed parents changed.now →
        Recorded 0 (heard_change before (table_of after.now) (watches_of watches.now)
        (change_given removed parents changed.now)) events.old events.new result }
{
    let n = created(after, watches, changed, parents, events);
    event_since(heard, after, watches, changed, removed, n, events)
}

// Records the changes of the open transaction in place k, in order, from the first record on; answers how many records there are.
pub fn changes(
    before: &[u8],
    after: &[u8],
    watches: &[u8],
    transactions: &[u8],
    k: usize,
    events: &mut [u8],
) -> usize
    requires { Stores before.now after.now watches.now × OpenTransaction transactions.now k ×
        (good_changes (transaction_of transactions.now k).changes ≡ true) × (length events.old ≡ events_size) }
    ensures { Recorded 0 (heard (table_of before.now) (table_of after.now) (watches_of watches.now)
        (transaction_of transactions.now k).changes) events.old events.new result }
{
    let count = transactions::places::changes(transactions, k);
    let mut n = 0;
    for j in 0..count {
        let changed = path(transactions, k, j);
        let gone = removed(transactions, k, j);
        let new = parents(transactions, k, j);
        n = change(before, after, watches, changed, gone, new, n, events);
    }
    n
}

// Records the removal of the node in a slot that was used before the call behind n records; answers how many records there are then.
fn removal(
    before: &[u8],
    after: &[u8],
    watches: &[u8],
    slot: usize,
    n: usize,
    events: &mut [u8],
) -> usize
    requires { Stores before.now after.now watches.now × Asked before.now slot × Room events.old n 1 }
    ensures { Recorded n (heard_change (table_of before.now) (table_of after.now) (watches_of watches.now)
        (removal_of (table_of before.now) slot)) events.old events.new result }
{
    let mut text = [0u8; LONGEST_PATH];
    let end = path_of(before, slot, &mut text);
    event(before, after, watches, &text[..end], true, n, events)
}

// Records the removals of the nodes in the first `count` slots of a list, which were used before the call; answers how many records there are.
pub fn removals(
    before: &[u8],
    after: &[u8],
    watches: &[u8],
    list: &[u8],
    count: usize,
    events: &mut [u8],
) -> usize
    requires { Stores before.now after.now watches.now × (count ≤ length list.now) × (count ≤ most_records) ×
        AllAsked before.now (take count list.now) × (length events.old ≡ events_size) }
    ensures { Recorded 0 (heard (table_of before.now) (table_of after.now) (watches_of watches.now)
        (map (removal_of (table_of before.now)) (take count list.now))) events.old events.new result }
{
    let mut n = 0;
    for slot in &list[..count] {
        n = removal(before, after, watches, usize::from(*slot), n, events);
    }
    n
}
