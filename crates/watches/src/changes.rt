// Watches added and taken out.
ghost use Rattle.std.specs.Prelude.{◌≡◌, [], ◌∷◌, ◌+◌, ◌*◌, ◌/◌, ◌%◌, ◌<◌, ◌≤◌, eqb, length, get_or, set};
ghost use Rattle.std.proofs.Math.Option.{none, some};
ghost use Rattle.rules.specs.Size.{most_watches, watch_fields_size, longest_token};
ghost use Rattle.rules.specs.Octets.{paste, bit};
ghost use Rattle.rules.specs.Entries.{without};
ghost use Rattle.rules.specs.Layout.{watches_bytes, watches_of};
ghost use Rattle.rules.specs.Sound.{twin};
ghost use Rattle.rules.specs.World.{without_watches};
ghost use Rattle.octets.specs.Options.{meant};
ghost use Rattle.domains.specs.Entry.{taken, dropped_if};
ghost use Rattle.watches.specs.Watch.{KeptWatches, owned_by, FitWatch, watch_given};

use crate::places::{is_twin, owned};
use domains::freeing::free_where;
use octets::parts::put_text;
use octets::sizes::{
    LONGEST_PATH, LONGEST_TOKEN, TOKEN_AT, WATCH_FIELDS_SIZE, WATCH_SIZE, WATCHES,
};

// The first byte of a watch: it is used, whether its path was given relative, and whether a depth was given.
fn marks(relative: bool, depth: Option<u8>) -> u8
    ensures { result ≡ 128 + 64 * bit relative + 32 * bit (taken (meant depth)) }
{
    128 + 64 * u8::from(relative) + 32 * u8::from(depth.is_some())
}

// Puts the fields of a watch into the six bytes from `at` on.
fn put_fields(s: &mut [u8], at: usize, first: u8, depth: u8, c: u32, path: usize, token: usize)
    requires { (at + watch_fields_size ≤ length s.old) × (token ≤ longest_token) }
    ensures { s.new ≡ paste at (first ∷ depth ∷ (c / 256 % 256) ∷ (c % 256) ∷ (path / 2 % 256) ∷ (path % 2 * 128 + token) ∷ [])
        s.old }
{
    s[at] = first;
    s[at + 1] = depth;
    s[at + 2] = (c / 256 % 256) as u8;
    s[at + 3] = (c % 256) as u8;
    s[at + 4] = (path / 2 % 256) as u8;
    s[at + 5] = (path % 2 * 128 + token) as u8;
}

// Puts a watch into place k.
pub fn add(
    s: &mut [u8],
    k: usize,
    c: u32,
    path: &[u8],
    relative: bool,
    depth: Option<u8>,
    token: &[u8],
)
    requires { (k < most_watches) × KeptWatches s.old × FitWatch c path.now relative token.now }
    ensures { s.new ≡ watches_bytes
        (set (watches_of s.old) k (some (watch_given c path.now relative depth token.now))) }
{
    let at = k * WATCH_SIZE;
    put_text(s, at + TOKEN_AT, token, LONGEST_TOKEN);
    put_text(s, at + WATCH_FIELDS_SIZE, path, LONGEST_PATH);
    put_fields(
        s,
        at,
        marks(relative, depth),
        depth.unwrap_or(0),
        c,
        path.len(),
        token.len(),
    );
}

// Takes the watch of connection c with a path and a token out.
pub fn remove_twin(s: &mut [u8], c: u32, p: &[u8], t: &[u8])
    requires { KeptWatches s.old }
    ensures { s.new ≡ watches_bytes (without (twin c p.now t.now) (watches_of s.old)) }
{
    free_where(s, WATCH_SIZE, WATCHES, |s, k| is_twin(s, k, c, p, t));
}

// Takes the watches of connection c out.
pub fn remove_of(s: &mut [u8], c: u32)
    requires { KeptWatches s.old }
    ensures { s.new ≡ watches_bytes (without_watches (eqb c) (watches_of s.old)) }
{
    free_where(s, WATCH_SIZE, WATCHES, |s, k| owned(s, k, c));
}
