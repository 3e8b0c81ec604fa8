// The decision on rights, with its ground.
ghost use Rattle.std.specs.Prelude.{◌≡◌, true, ◌<◌};
ghost use Rattle.rules.specs.Node.{node_at};
ghost use Rattle.rules.specs.Rights.{access_of, named, may_read, may_write, may_own};
ghost use Rattle.rules.specs.Layout.{table_of};
ghost use Rattle.lookup.specs.Rights.{Asked, access_meant};

use senders::is_control;
use slots::fields::{entry_at, entry_count};

// Why the access is what it is: the control domain, the owner, the later entry of that place, or none of these.
#[derive(Clone, Copy, Debug, PartialEq, Eq)]
pub enum Ground {
    Control,
    Owner,
    Entry(usize),
    Default,
}

#[derive(Clone, Copy, Debug, PartialEq, Eq)]
pub struct Access {
    // A set of two bits, 1 to read and 2 to write, which the rule book has as a number too.
    pub access: u32,
    pub ground: Ground,
}

// The access of the first later entry that names a domain, else the first entry's.
fn named(t: &[u8], i: usize, domain: u32, first: u32) -> Access
    requires { Asked t.now i }
    ensures { access_meant result ≡ named domain first 1 (node_at (table_of t.now) i).others }
{
    let count = entry_count(t, i);
    for k in 1..count {
        let e = entry_at(t, i, k);
        if e.domain == domain {
            return Access {
                access: e.access,
                ground: Ground::Entry(k),
            };
        }
    }
    Access {
        access: first,
        ground: Ground::Default,
    }
}

// A domain's access to the node in a slot.
pub fn access_of(t: &[u8], i: usize, domain: u32) -> Access
    requires { Asked t.now i }
    ensures { access_meant result ≡ access_of domain (node_at (table_of t.now) i) }
{
    if is_control(domain) {
        return Access {
            access: 3,
            ground: Ground::Control,
        };
    }
    let owner = entry_at(t, i, 0);
    if domain == owner.domain {
        return Access {
            access: 3,
            ground: Ground::Owner,
        };
    }
    named(t, i, domain, owner.access)
}

pub fn may_read(t: &[u8], i: usize, domain: u32) -> bool
    requires { Asked t.now i }
    ensures { result ≡ may_read domain (node_at (table_of t.now) i) }
{
    access_of(t, i, domain).access % 2 == 1
}

pub fn may_write(t: &[u8], i: usize, domain: u32) -> bool
    requires { Asked t.now i }
    ensures { result ≡ may_write domain (node_at (table_of t.now) i) }
{
    2 <= access_of(t, i, domain).access
}

// The control domain and the owner.
pub fn may_own(t: &[u8], i: usize, domain: u32) -> bool
    requires { Asked t.now i }
    ensures { result ≡ may_own domain (node_at (table_of t.now) i) }
{
    is_control(domain) || domain == entry_at(t, i, 0).domain
}
