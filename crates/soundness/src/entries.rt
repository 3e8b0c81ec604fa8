// The entries of a slot: their domains, and what is past them.
ghost use Rattle.std.specs.Prelude.{◌≡◌, true, ◌<◌};
ghost use Rattle.soundness.specs.Parts.{Used, sized, kept_entries, low_domains};

use octets::numbers::number;
use octets::sizes::{FIELDS_SIZE, MOST_ENTRIES, SLOT_SIZE};
use slots::fields::entry_count;

const LAST_DOMAIN: u64 = octets::sizes::LAST_DOMAIN as u64;

// An entry is 18 bits, of which the low 16 are its domain.
const ENTRY_BITS: usize = 18;

// Whether no entry's domain is above the last; `first` is the entries' first byte, `rest` the others.
fn low_domains(first: u64, rest: u64) -> bool
    requires { first < 256 }
    ensures { result ≡ low_domains first rest }
{
    if LAST_DOMAIN < (first * 1024 + (rest >> (3 * ENTRY_BITS))) % 65536 {
        return false;
    }
    if LAST_DOMAIN < (rest >> (2 * ENTRY_BITS)) % 65536 {
        return false;
    }
    if LAST_DOMAIN < (rest >> ENTRY_BITS) % 65536 {
        return false;
    }
    rest % 65536 <= LAST_DOMAIN
}

// Whether the domains are not above the last, and the entries past the count are zero. Most slots have one entry, with nothing behind it.
pub fn kept_entries(t: &[u8], i: usize) -> bool
    requires { Used t.now i × (sized t.now i ≡ true) }
    ensures { result ≡ kept_entries t.now i }
{
    let at = i * SLOT_SIZE + FIELDS_SIZE;
    let first = t[at] as u64;
    let rest = number::<8>(t, at + 1);
    let count = entry_count(t, i);
    if count == 1 {
        return (first * 1024 + (rest >> (3 * ENTRY_BITS))) % 65536 <= LAST_DOMAIN
            && rest % (1 << (3 * ENTRY_BITS)) == 0;
    }
    let past = ENTRY_BITS * (MOST_ENTRIES - count);
    low_domains(first, rest) && rest % (1 << past) == 0
}
