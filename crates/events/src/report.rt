// Whether a record's path concerns a watch, and the path that the watch reports.
ghost use Rattle.std.specs.Prelude.{◌≡◌, true};
ghost use Rattle.rules.specs.Message.{is_domain_path, concerns, cut, reported};
ghost use Rattle.watches.specs.Watch.{watch_of};
ghost use Rattle.events.specs.Messages.{RoomToCut, UsedWatch};

use octets::compare::{begins, same};
use octets::decimals::number_in;
use octets::written::digits;
use paths::relation::is_below;
use watches::places::{depth, domain, path, relative};

const LAST_DOMAIN: u64 = octets::sizes::LAST_DOMAIN as u64;

// Whether a text is a slash and a domain id.
fn is_domain_path(p: &[u8]) -> bool
    ensures { result ≡ is_domain_path p.now }
{
    match p.split_first() {
        Some((first, id)) => *first == b'/' && number_in(id, 0, LAST_DOMAIN).is_some(),
        None => false,
    }
}

// Whether a record's path is the watch's path, above or below it, or what an `@` watch may hear.
pub fn concerns(watches: &[u8], k: usize, p: &[u8]) -> bool
    requires { UsedWatch watches.now k }
    ensures { result ≡ concerns p.now (watch_of watches.now k).place }
{
    let own = path(watches, k);
    if same(p, own) {
        return true;
    }
    if !begins(b"/", own) {
        return is_domain_path(p);
    }
    is_below(own, p) || is_below(p, own)
}

// A path without the base of domain d, where it was given relative.
fn cut(relative: bool, d: u32, p: &[u8]) -> &[u8]
    requires { RoomToCut relative d p.now }
    ensures { result.now ≡ cut relative d p.now }
{
    if !relative {
        return p;
    }
    let n = 15 + digits(d as u64);
    &p[n..]
}

// The path that the watch in place k reports of a record's path p: a part of the watch's table if the watch lies below p, else of the record.
pub fn reported<'a>(watches: &'a [u8], k: usize, p: &'a [u8]) -> &'a [u8]
    requires { (UsedWatch watches.now k) × (concerns p.now (watch_of watches.now k).place ≡ true) }
    ensures { result.now ≡ reported (watch_of watches.now k) p.now }
{
    let own = path(watches, k);
    if !begins(b"/", own) {
        return if depth(watches, k).is_some() { p } else { own };
    }
    let r = relative(watches, k);
    let d = domain(watches, k);
    if is_below(p, own) {
        return cut(r, d, own);
    }
    cut(r, d, p)
}
