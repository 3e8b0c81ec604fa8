// Domains added and taken out.
ghost use Rattle.std.specs.Prelude.{◌≡◌, ◌<◌, eqb, get_or, set};
ghost use Rattle.std.proofs.Math.Option.{none, some};
ghost use Rattle.rules.specs.Size.{most_domains};
ghost use Rattle.rules.specs.Entries.{without};
ghost use Rattle.rules.specs.Layout.{domains_bytes, domains_of};
ghost use Rattle.domains.specs.Entry.{dropped_if};
ghost use Rattle.domains.specs.Kept.{KeptDomains};

use crate::freeing::free_where;
use crate::places::holds;
use octets::sizes::{DOMAIN_SIZE, DOMAINS};

// Puts domain d into place k.
pub fn add(s: &mut [u8], k: usize, d: u32)
    requires { (k < most_domains) × (d < 65536) × KeptDomains s.old }
    ensures { s.new ≡ domains_bytes (set (domains_of s.old) k (some d)) }
{
    let at = k * DOMAIN_SIZE;
    s[at] = 128;
    s[at + 1] = (d / 256 % 256) as u8;
    s[at + 2] = (d % 256) as u8;
}

// Takes domain d out.
pub fn remove(s: &mut [u8], d: u32)
    requires { KeptDomains s.old }
    ensures { s.new ≡ domains_bytes (without (eqb d) (domains_of s.old)) }
{
    free_where(s, DOMAIN_SIZE, DOMAINS, |s, k| holds(s, k, d));
}
