// Whether the bytes of domains are sound.
ghost use Rattle.std.specs.Prelude.{◌≡◌, ◌+◌, ◌<◌, length, get_or, drop};
ghost use Rattle.std.proofs.Math.Option.{none};
ghost use Rattle.rules.specs.Size.{most_domains, domain_size, domains_size};
ghost use Rattle.rules.specs.Octets.{same};
ghost use Rattle.rules.specs.Layout.{domain_bytes, domain_in, domains_bytes, domains_of};
ghost use Rattle.rules.specs.Sound.{good_domains, sound_domains};
ghost use Rattle.domains.specs.Checks.{good_domain};
ghost use Rattle.domains.specs.Kept.{kept_at};

use crate::places::{domain, introduced_from, used};
use octets::compare::all_zero;
use octets::sizes::{DOMAIN_SIZE, DOMAINS, DOMAINS_SIZE, LAST_DOMAIN};

// Whether the bytes of place k are those of what they mean.
fn place_kept(s: &[u8], k: usize) -> bool
    requires { (k < most_domains) × (length s.now ≡ domains_size) }
    ensures { result ≡ kept_at most_domains domain_size domain_bytes domain_in s.now k }
{
    let at = k * DOMAIN_SIZE;
    if 128 <= s[at] {
        return s[at] == 128;
    }
    all_zero(&s[at..at + DOMAIN_SIZE])
}

// Whether the bytes are those of what they mean.
fn kept(s: &[u8]) -> bool
    requires { length s.now ≡ domains_size }
    ensures { result ≡ same (domains_bytes (domains_of s.now)) s.now }
{
    (0..DOMAINS).all(|k| place_kept(s, k))
}

// Whether place k is free, or has an id in range that no later place has.
fn place_good(s: &[u8], k: usize) -> bool
    requires { (k < most_domains) × (length s.now ≡ domains_size) }
    ensures { result ≡ good_domain (get_or (domains_of s.now) k none) (drop (k + 1) (domains_of s.now)) }
{
    if !used(s, k) {
        return true;
    }
    let d = domain(s, k);
    if d < 1 {
        return false;
    }
    if LAST_DOMAIN < d {
        return false;
    }
    !introduced_from(s, k + 1, d)
}

fn good(s: &[u8]) -> bool
    requires { length s.now ≡ domains_size }
    ensures { result ≡ good_domains (domains_of s.now) }
{
    (0..DOMAINS).all(|k| place_good(s, k))
}

pub fn sound_domains(s: &[u8]) -> bool
    ensures { result ≡ sound_domains s.now }
{
    if s.len() != DOMAINS_SIZE {
        return false;
    }
    kept(s) && good(s)
}
