// Whether the bytes of watches are sound.
ghost use Rattle.std.specs.Prelude.{◌≡◌, true, ◌+◌, ◌*◌, ◌<◌, length, get_or, drop};
ghost use Rattle.std.proofs.Math.Option.{none};
ghost use Rattle.rules.specs.Size.{most_watches, watch_size, watches_size, domains_size};
ghost use Rattle.rules.specs.Octets.{same};
ghost use Rattle.rules.specs.Path.{base, beyond, is_full, names_in};
ghost use Rattle.rules.specs.Layout.{place_in, domains_of, watch_bytes, watch_in, watches_bytes, watches_of};
ghost use Rattle.rules.specs.Sound.{no_nul, strictly_below, good_place, good_watches, sound_watches};
ghost use Rattle.octets.specs.Options.{meant};
ghost use Rattle.domains.specs.Kept.{kept_at};
ghost use Rattle.watches.specs.Watch.{KeptWatches};
ghost use Rattle.watches.specs.Checks.{good_watch_at, place_same, depth_same, fields_same};

use crate::places::{
    depth, owner, path, path_length, relative, token, token_length, used, watched_from,
};
use domains::places::known_sender;
use octets::compare::{all_zero, begins, rest_zero};
use octets::sizes::{
    LONGEST_PATH, LONGEST_TOKEN, TOKEN_AT, WATCH_FIELDS_SIZE, WATCH_SIZE, WATCHES, WATCHES_SIZE,
};
use paths::answer::Form;
use paths::form::form;
use paths::full::full;
use paths::names::fits;
use senders::{domain_of, is_control};

// ── bytes that are those of what they mean ──

// Whether a path's text and its mark are those of the place that they mean.
fn place_same(relative: bool, x: &[u8]) -> bool
    ensures { result ≡ place_same relative x.now }
{
    match form(x) {
        Form::Absolute => true,
        Form::Special => !relative,
        Form::Relative => false,
        Form::Malformed => x.is_empty() && !relative,
    }
}

// Whether a depth is given in place k, or is 0.
fn depth_same(s: &[u8], k: usize) -> bool
    requires { (k < most_watches) × (length s.now ≡ watches_size) }
    ensures { result ≡ depth_same s.now k }
{
    let at = k * WATCH_SIZE;
    s[at] / 32 % 2 == 1 || s[at + 1] == 0
}

// Whether the zero bits of place k are zero, its depth is 0 where none is given, and its token is within the size.
fn fields_same(s: &[u8], k: usize) -> bool
    requires { (k < most_watches) × (length s.now ≡ watches_size) }
    ensures { result ≡ fields_same s.now k }
{
    let at = k * WATCH_SIZE;
    if s[at] % 32 != 0 {
        return false;
    }
    if s[at + 5] / 64 % 2 != 0 {
        return false;
    }
    if LONGEST_TOKEN < token_length(s, k) {
        return false;
    }
    depth_same(s, k)
}

// Whether the bytes of place k are those of what they mean.
fn place_kept(s: &[u8], k: usize) -> bool
    requires { (k < most_watches) × (length s.now ≡ watches_size) }
    ensures { result ≡ kept_at most_watches watch_size watch_bytes watch_in s.now k }
{
    let at = k * WATCH_SIZE;
    if s[at] < 128 {
        return all_zero(&s[at..at + WATCH_SIZE]);
    }
    let n = path_length(s, k);
    if LONGEST_PATH < n {
        return false;
    }
    let from = at + WATCH_FIELDS_SIZE;
    if !place_same(s[at] / 64 % 2 == 1, &s[from..from + n]) {
        return false;
    }
    if !fields_same(s, k) {
        return false;
    }
    rest_zero(s, from, n, LONGEST_PATH)
        && rest_zero(s, at + TOKEN_AT, token_length(s, k), LONGEST_TOKEN)
}

// Whether the bytes are those of what they mean.
fn kept(s: &[u8]) -> bool
    requires { length s.now ≡ watches_size }
    ensures { result ≡ same (watches_bytes (watches_of s.now)) s.now }
{
    (0..WATCHES).all(|k| place_kept(s, k))
}

// ── what is asked of each watch ──

fn no_nul(t: &[u8]) -> bool
    ensures { result ≡ no_nul t.now }
{
    !t.contains(&0)
}

// Whether a full path lies below the base of domain d, not at it.
fn below_base(d: u32, x: &[u8]) -> bool
    requires { is_full x.now ≡ true }
    ensures { result ≡ strictly_below (beyond (base d) (names_in x.now)) }
{
    let mut above = [0u8; 40];
    let n = full(&mut above, d, &x[..0]);
    begins(&above[..n], x)
}

// Whether a watch of connection c may be on a path, or an event's name. The text is one of the two, or empty, and its first byte tells which.
fn good_place(c: u32, depth: Option<u8>, relative: bool, x: &[u8]) -> bool
    requires { place_same relative x.now ≡ true }
    ensures { result ≡ good_place c (meant depth) (place_in relative x.now) }
{
    if x.is_empty() {
        return false;
    }
    if x[0] == b'/' {
        if !fits(x) {
            return false;
        }
        return !relative || below_base(domain_of(c), x);
    }
    if !is_control(domain_of(c)) {
        return false;
    }
    depth.is_none_or(|k| k == 1)
}

// Whether place k is free, or has a good watch that no later place has too.
fn place_good(s: &[u8], domains: &[u8], k: usize) -> bool
    requires { (k < most_watches) × KeptWatches s.now × (length domains.now ≡ domains_size) }
    ensures { result ≡ good_watch_at (domains_of domains.now) (get_or (watches_of s.now) k none)
        (drop (k + 1) (watches_of s.now)) }
{
    if !used(s, k) {
        return true;
    }
    let c = owner(s, k);
    if !known_sender(domains, c) {
        return false;
    }
    let t = token(s, k);
    if !no_nul(t) {
        return false;
    }
    let p = path(s, k);
    if !good_place(c, depth(s, k), relative(s, k), p) {
        return false;
    }
    !watched_from(s, k + 1, c, p, t)
}

fn good(s: &[u8], domains: &[u8]) -> bool
    requires { KeptWatches s.now × (length domains.now ≡ domains_size) }
    ensures { result ≡ good_watches (domains_of domains.now) (watches_of s.now) }
{
    (0..WATCHES).all(|k| place_good(s, domains, k))
}

// Whether the bytes of watches are sound beside those of the domains.
pub fn sound_watches(s: &[u8], domains: &[u8]) -> bool
    requires { length domains.now ≡ domains_size }
    ensures { result ≡ sound_watches (domains_of domains.now) s.now }
{
    if s.len() != WATCHES_SIZE {
        return false;
    }
    kept(s) && good(s, domains)
}
