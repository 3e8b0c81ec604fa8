// The fields of a watch, and finding one.
ghost use Rattle.std.specs.Prelude.{◌≡◌, true, ◌+◌, ◌<◌, ◌≤◌, length, get_or, drop, IfSome, unwrap_or};
ghost use Rattle.std.proofs.Math.Option.{none};
ghost use Rattle.rules.specs.Size.{most_watches, watches_size};
ghost use Rattle.rules.specs.Domain.{domain_of};
ghost use Rattle.rules.specs.Entries.{lowest};
ghost use Rattle.rules.specs.Event.{place_text};
ghost use Rattle.rules.specs.Layout.{is_relative, watches_of};
ghost use Rattle.rules.specs.Sound.{twin, watched};
ghost use Rattle.octets.specs.Options.{meant};
ghost use Rattle.domains.specs.Entry.{taken, passes};
ghost use Rattle.watches.specs.Watch.{KeptWatches, watch_of, path_length, token_length, TakenWatch, owned_by};

use octets::compare::same;
use octets::numbers::number;
use octets::sizes::{TOKEN_AT, WATCH_FIELDS_SIZE, WATCH_SIZE, WATCHES};
use senders::domain_of;

// Whether place k is taken. Each table has a test of its own, one line, since each contract speaks of that table's list.
pub fn used(s: &[u8], k: usize) -> bool
    requires { (k < most_watches) × (length s.now ≡ watches_size) }
    ensures { result ≡ taken (get_or (watches_of s.now) k none) }
{
    128 <= s[k * WATCH_SIZE]
}

pub fn owner(s: &[u8], k: usize) -> u32
    requires { TakenWatch s.now k }
    ensures { result ≡ (watch_of s.now k).owner }
{
    number::<2>(s, k * WATCH_SIZE + 2) as u32
}

// The domain that the owner speaks for.
pub fn domain(s: &[u8], k: usize) -> u32
    requires { TakenWatch s.now k }
    ensures { result ≡ domain_of (watch_of s.now k).owner }
{
    domain_of(owner(s, k))
}

// Whether the path was given relative to the owner's base.
pub fn relative(s: &[u8], k: usize) -> bool
    requires { TakenWatch s.now k }
    ensures { result ≡ is_relative (watch_of s.now k).place }
{
    s[k * WATCH_SIZE] / 64 % 2 == 1
}

// How deep below its path the watch hears, where a depth was given.
pub fn depth(s: &[u8], k: usize) -> Option<u8>
    requires { TakenWatch s.now k }
    ensures { meant result ≡ (watch_of s.now k).depth }
{
    if s[k * WATCH_SIZE] / 32 % 2 == 1 {
        return Some(s[k * WATCH_SIZE + 1]);
    }
    None
}

// The path's length, as its field has it.
pub fn path_length(s: &[u8], k: usize) -> usize
    requires { (k < most_watches) × (length s.now ≡ watches_size) }
    ensures { result ≡ path_length s.now k }
{
    (number::<2>(s, k * WATCH_SIZE + 4) / 128) as usize
}

// The token's length, as its field has it.
pub fn token_length(s: &[u8], k: usize) -> usize
    requires { (k < most_watches) × (length s.now ≡ watches_size) }
    ensures { result ≡ token_length s.now k }
{
    (number::<2>(s, k * WATCH_SIZE + 4) % 64) as usize
}

// The watch's own path, or its event's name.
pub fn path(s: &[u8], k: usize) -> &[u8]
    requires { TakenWatch s.now k }
    ensures { result.now ≡ place_text (watch_of s.now k).place }
{
    let n = path_length(s, k);
    let from = k * WATCH_SIZE + WATCH_FIELDS_SIZE;
    &s[from..from + n]
}

pub fn token(s: &[u8], k: usize) -> &[u8]
    requires { TakenWatch s.now k }
    ensures { result.now ≡ (watch_of s.now k).token }
{
    let n = token_length(s, k);
    let from = k * WATCH_SIZE + TOKEN_AT;
    &s[from..from + n]
}

// Whether place k has a watch of connection c.
pub fn owned(s: &[u8], k: usize, c: u32) -> bool
    requires { (k < most_watches) × KeptWatches s.now }
    ensures { result ≡ passes (owned_by c) (get_or (watches_of s.now) k none) }
{
    used(s, k) && c == owner(s, k)
}

// Whether place k has the watch of connection c with a path and a token.
pub fn is_twin(s: &[u8], k: usize, c: u32, p: &[u8], t: &[u8]) -> bool
    requires { (k < most_watches) × KeptWatches s.now }
    ensures { result ≡ passes (twin c p.now t.now) (get_or (watches_of s.now) k none) }
{
    if !owned(s, k, c) {
        return false;
    }
    if !same(p, path(s, k)) {
        return false;
    }
    same(t, token(s, k))
}

// Whether that watch is in a place from one on.
pub fn watched_from(s: &[u8], from: usize, c: u32, p: &[u8], t: &[u8]) -> bool
    requires { (from ≤ most_watches) × KeptWatches s.now }
    ensures { result ≡ watched c p.now t.now (drop from (watches_of s.now)) }
{
    (from..WATCHES).any(|k| is_twin(s, k, c, p, t))
}

// Whether connection c has a watch with a path and a token.
pub fn watched(s: &[u8], c: u32, p: &[u8], t: &[u8]) -> bool
    requires { KeptWatches s.now }
    ensures { result ≡ watched c p.now t.now (watches_of s.now) }
{
    watched_from(s, 0, c, p, t)
}

// The lowest free place.
pub fn lowest_free(s: &[u8]) -> Option<usize>
    requires { length s.now ≡ watches_size }
    ensures found { unwrap_or result most_watches ≡ lowest (watches_of s.now) }
    ensures below { IfSome result (λ k. k < most_watches) }
{
    octets::places::lowest_free(s, WATCH_SIZE, WATCHES)
}
