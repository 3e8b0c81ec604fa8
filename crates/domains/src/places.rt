// The introduced domains.
ghost use Rattle.std.specs.Prelude.{◌≡◌, true, ◌<◌, ◌≤◌, eqb, length, get_or, drop, IfSome, unwrap_or};
ghost use Rattle.std.proofs.Math.Option.{none};
ghost use Rattle.rules.specs.Size.{most_domains, domains_size};
ghost use Rattle.rules.specs.Domain.{domain_of};
ghost use Rattle.rules.specs.Entries.{lowest, has};
ghost use Rattle.rules.specs.Layout.{domains_of};
ghost use Rattle.rules.specs.Sound.{introduced, known};
ghost use Rattle.domains.specs.Entry.{taken, passes, entry_or};

use octets::numbers::number;
use octets::sizes::{DOMAIN_SIZE, DOMAINS};
use senders::{domain_of, is_control};

// Whether place k is taken. Each table has a test of its own, one line, since each contract speaks of that table's list.
pub fn used(s: &[u8], k: usize) -> bool
    requires { (k < most_domains) × (length s.now ≡ domains_size) }
    ensures { result ≡ taken (get_or (domains_of s.now) k none) }
{
    128 <= s[k * DOMAIN_SIZE]
}

// The domain in place k.
pub fn domain(s: &[u8], k: usize) -> u32
    requires { (k < most_domains) × (length s.now ≡ domains_size) × (taken (get_or (domains_of s.now) k none) ≡ true) }
    ensures { result ≡ entry_or 0 (get_or (domains_of s.now) k none) }
{
    number::<2>(s, k * DOMAIN_SIZE + 1) as u32
}

// Whether place k has domain d.
pub fn holds(s: &[u8], k: usize, d: u32) -> bool
    requires { (k < most_domains) × (length s.now ≡ domains_size) }
    ensures { result ≡ passes (eqb d) (get_or (domains_of s.now) k none) }
{
    used(s, k) && d == domain(s, k)
}

// Whether domain d is in a place from one on.
pub fn introduced_from(s: &[u8], from: usize, d: u32) -> bool
    requires { (from ≤ most_domains) × (length s.now ≡ domains_size) }
    ensures { result ≡ has (eqb d) (drop from (domains_of s.now)) }
{
    (from..DOMAINS).any(|k| holds(s, k, d))
}

pub fn introduced(s: &[u8], d: u32) -> bool
    requires { length s.now ≡ domains_size }
    ensures { result ≡ introduced d (domains_of s.now) }
{
    introduced_from(s, 0, d)
}

// Whether d is the control domain or an introduced one.
pub fn known(s: &[u8], d: u32) -> bool
    requires { length s.now ≡ domains_size }
    ensures { result ≡ known d (domains_of s.now) }
{
    is_control(d) || introduced(s, d)
}

// Whether a connection speaks for a known domain.
pub fn known_sender(s: &[u8], connection: u32) -> bool
    requires { length s.now ≡ domains_size }
    ensures { result ≡ known (domain_of connection) (domains_of s.now) }
{
    known(s, domain_of(connection))
}

// The lowest free place.
pub fn lowest_free(s: &[u8]) -> Option<usize>
    requires { length s.now ≡ domains_size }
    ensures found { unwrap_or result most_domains ≡ lowest (domains_of s.now) }
    ensures below { IfSome result (λ k. k < most_domains) }
{
    octets::places::lowest_free(s, DOMAIN_SIZE, DOMAINS)
}
