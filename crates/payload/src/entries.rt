// SET_PERMS: a path and permission entries.
ghost use Rattle.std.specs.Prelude.{◌≡◌, ◌^◌, ◌<◌, ◌≤◌, length, drop};
ghost use Rattle.rules.specs.Octets.{Octets};
ghost use Rattle.rules.specs.Path.{Connection, domain_of};
ghost use Rattle.rules.specs.Payload.{strings, entry_of, setting_all};
ghost use Rattle.payload.specs.Meaning.{Parses, kept};
ghost use Rattle.payload.specs.Answers.{permission_meant, no_entries, with_entry, entries_in, added_to, setting_of};

use crate::answer::{Ask, Entries, Entry, Path, Request};
use crate::asks::asking;
use crate::cursor::{Cursor, Taken};
use crate::given::named;
use crate::numbers::{LAST_DOMAIN, letter, small};
use octets::sizes::MOST_ENTRIES;

// The permission entry that a string says: an access letter and a domain id.
pub fn permission(s: &[u8]) -> Option<Entry>
    ensures { permission_meant result ≡ entry_of s.now }
{
    let (first, rest) = s.split_first()?;
    let access = letter(*first)?;
    let domain = small(rest, 0, LAST_DOMAIN)?;
    Some(Entry { access, domain })
}

impl Entries {
    // No entries.
    fn none() -> Entries
        ensures { result ≡ no_entries }
    {
        let blank = Entry {
            access: 0,
            domain: 0,
        };
        Entries {
            count: 0,
            kept: [blank; MOST_ENTRIES],
        }
    }

    // One entry more: the first four are kept, and all are counted.
    fn with(self, e: Entry) -> Entries
        requires { self.count < 2 ^ 63 }
        ensures { result ≡ with_entry self e }
    {
        let mut next = self;
        if self.count < MOST_ENTRIES {
            next.kept[self.count] = e;
        }
        next.count += 1;
        next
    }
}

// The entries of all strings from a cursor on.
fn permissions(s: &[u8], from: Cursor) -> Option<Entries>
    requires { from.at ≤ length s.now }
    ensures { result ≡ added_to no_entries (entries_in (strings (drop from.at s.now))) }
{
    let mut entries = Entries::none();
    let mut cursor = from;
    // A turn goes to the cursor behind a string, which is passed on by value.
    loop {
        match cursor.next(s) {
            Taken::End => return Some(entries),
            Taken::Left => return None,
            Taken::String { start, end, next } => {
                let e = permission(&s[start..end])?;
                entries = entries.with(e);
                cursor = next;
            }
        }
    }
}

// Entries put on a path: at least one.
fn setting(path: Path, entries: Entries) -> Option<Request>
    ensures { (s : Octets) → result ≡ setting_of s path entries }
{
    if entries.count == 0 {
        return None;
    }
    asking(Ask::SetPerms(entries), path)
}

// SET_PERMS: a path and one entry or more.
pub fn set_perms(s: &[u8]) -> Option<Request>
    ensures { Parses s.now result (λ (c : Connection). kept (setting_all (domain_of c) (strings s.now))) }
{
    let Taken::String { end, next, .. } = Cursor::new().next(s) else {
        return None;
    };
    let entries = permissions(s, next)?;
    setting(named(s, end)?, entries)
}
