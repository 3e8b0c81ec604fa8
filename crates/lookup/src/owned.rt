// "The walk visits a node, then its children in name order, and doesn't enter a removed one."
ghost use Rattle.std.specs.Prelude.{◌≡◌, true, ◌+◌, ◌≤◌, ◌<◌, length, take, drop};
ghost use Rattle.rules.specs.Size.{slots};
ghost use Rattle.rules.specs.Node.{owned_below};
ghost use Rattle.rules.specs.Layout.{table_of};
ghost use Rattle.rules.specs.Sound.{sound_table};
ghost use Rattle.lookup.specs.Rights.{Asked};
ghost use Rattle.lookup.specs.Children.{AllAsked};
ghost use Rattle.lookup.specs.Walk.{owned_among, Entered, Owned};

use crate::children::children;
use octets::sizes::{DEEPEST, SLOTS};
use slots::fields::entry_at;

// The deepest level of a path, and the root's.
const LEVELS: usize = DEEPEST + 1;

// Enters, from place n on, the topmost of slot i and the levels below it that a domain owns; answers the place behind them.
#[cycle(visit_visit_list)]
fn visit(t: &[u8], domain: u32, i: usize, depth: usize, out: &mut [u8], n: usize) -> usize
    requires { Asked t.now i × (n + length (owned_below depth (table_of t.now) domain i) ≤ length out.old) }
    ensures { Entered out.old n (owned_below depth (table_of t.now) domain i) out.new result }
{
    if depth == 0 {
        return n;
    }
    if entry_at(t, i, 0).domain == domain {
        out[n] = (i % 256) as u8;
        return n + 1;
    }
    let mut list = [0u8; SLOTS];
    let count = children(t, i, &mut list);
    visit_list(t, domain, &list, count, 0, depth - 1, out, n)
}

// The same of each of the first `count` slots of a list, from place k on.
#[cycle(visit_visit_list)]
fn visit_list(
    t: &[u8],
    domain: u32,
    list: &[u8],
    count: usize,
    k: usize,
    depth: usize,
    out: &mut [u8],
    n: usize,
) -> usize
    requires { (count ≤ length list.now) × AllAsked t.now (take count list.now) ×
        (n + length (owned_among depth (table_of t.now) domain (drop k (take count list.now))) ≤ length out.old) }
    ensures { Entered out.old n (owned_among depth (table_of t.now) domain (drop k (take count list.now)))
        out.new result }
{
    if count <= k {
        return n;
    }
    let next = visit(t, domain, list[k] as usize, depth, out, n);
    visit_list(t, domain, list, count, k + 1, depth, out, next)
}

// The topmost nodes that a domain other than 0 owns, in the walk's order, at the front of a list of 128; answers how many they are.
pub fn owned(t: &[u8], domain: u32, out: &mut [u8]) -> usize
    requires { (sound_table t.now ≡ true) × (1 ≤ domain) × (length out.old ≡ slots) }
    ensures { Owned t.now domain out.new result }
{
    visit(t, domain, 0, LEVELS, out, 0)
}
