// WATCH, UNWATCH and RESET_WATCHES.
ghost use Rattle.std.specs.Prelude.{◌≡◌, Bool, ◌&&◌, ◌<◌, leb, length};
ghost use Rattle.std.proofs.Math.Option.{none, some};
ghost use Rattle.rules.specs.Size.{reply_size, events_size, longest_token};
ghost use Rattle.rules.specs.Payload.{Place};
ghost use Rattle.rules.specs.Event.{place_text};
ghost use Rattle.rules.specs.Layout.{place_in};
ghost use Rattle.rules.specs.World.{World, place_fits, watching, unwatching, resetting};
ghost use Rattle.octets.specs.Options.{meant};
ghost use Rattle.watches.specs.Watch.{KeptWatches};
ghost use Rattle.transactions.specs.Transaction.{KeptTransactions};
ghost use Rattle.replies.specs.Does.{lent, Does};
ghost use Rattle.domains.specs.Entry.{entry_or};
ghost use Rattle.handlers.specs.Watching.{PlacedAs, NamedSo};

use events::domain_events::first;
use octets::sizes::LONGEST_TOKEN;
use paths::names::fits;
use replies::kinds::{Done, Errno, Outcome, okay};
use transactions::changes::remove_of as end_all_of;
use watches::changes::{add, remove_of, remove_twin};
use watches::places::{lowest_free, watched};

// Whether a watch of a path, or of an event's name, fits with its token.
fn is_short(path: &[u8], special: bool, token: &[u8]) -> bool
    requires { PlacedAs special path.now }
    ensures { (w : World) (relative : Bool) →
        result ≡ (place_fits w (place_in relative path.now) && leb (length token.now) longest_token) }
{
    if LONGEST_TOKEN < token.len() {
        return false;
    }
    if special {
        return true;
    }
    fits(path)
}

// Gives a connection a watch of a full path, or of an event's name, and its first event.
pub fn watch(
    watches: &mut [u8],
    c: u32,
    path: &[u8],
    special: bool,
    relative: bool,
    depth: Option<u8>,
    token: &[u8],
    reply: &mut [u8],
    events: &mut [u8],
) -> Outcome
    requires { KeptWatches watches.old × (c < 65536) × PlacedAs special path.now × NamedSo special relative × (entry_or 0 (meant depth) < 256) ×
        (length reply.old ≡ reply_size) × (length events.old ≡ events_size) }
    ensures { Does
        (lent none none (some watches.old) none none reply.old (some events.old))
        (λ (w : World). watching w c (place_in relative path.now) token.now (meant depth))
        (lent none none (some watches.new) none none reply.new (some events.new)) result }
{
    if watched(watches, c, path, token) {
        return Err(Errno::Exists);
    }
    if !is_short(path, special, token) {
        return Err(Errno::NoSpace);
    }
    let Some(k) = lowest_free(watches) else {
        return Err(Errno::NoSpace);
    };
    add(watches, k, c, path, relative, depth, token);
    let n = first(watches, k, events);
    Ok(Done::with_events(okay(reply), n))
}

// Drops a connection's watch of a full path, or an event's name, and a token.
pub fn unwatch(watches: &mut [u8], c: u32, path: &[u8], token: &[u8], reply: &mut [u8]) -> Outcome
    requires { KeptWatches watches.old × (length reply.old ≡ reply_size) }
    ensures { (p : Place) → place_text p ≡ path.now → Does
        (lent none none (some watches.old) none none reply.old none)
        (λ (w : World). unwatching w c p token.now)
        (lent none none (some watches.new) none none reply.new none) result }
{
    if !watched(watches, c, path, token) {
        return Err(Errno::NoEntry);
    }
    remove_twin(watches, c, path, token);
    Ok(Done::with_events(okay(reply), 0))
}

// Drops a connection's watches and transactions.
pub fn reset(watches: &mut [u8], transactions: &mut [u8], c: u32, reply: &mut [u8]) -> Outcome
    requires { KeptWatches watches.old × KeptTransactions transactions.old × (length reply.old ≡ reply_size) }
    ensures { Does
        (lent none none (some watches.old) (some transactions.old) none reply.old none)
        (λ (w : World). resetting w c)
        (lent none none (some watches.new) (some transactions.new) none reply.new none) result }
{
    remove_of(watches, c);
    end_all_of(transactions, c);
    Ok(Done::with_events(okay(reply), 0))
}
