// The words of a line.
ghost use Rattle.std.specs.Prelude.{◌<◌};

use octets::decimals::decimal;

// The request types by name, numbered from 1 on.
const TYPES: [&[u8]; 14] = [
    b"DIRECTORY",
    b"READ",
    b"GET_PERMS",
    b"WATCH",
    b"UNWATCH",
    b"TRANSACTION_START",
    b"TRANSACTION_END",
    b"INTRODUCE",
    b"RELEASE",
    b"GET_DOMAIN_PATH",
    b"WRITE",
    b"MKDIR",
    b"RM",
    b"SET_PERMS",
];

// What stands behind the first k blanks, which is nothing where there are fewer.
pub fn behind(s: &[u8], k: usize) -> &[u8] {
    s.splitn(k.saturating_add(1), |b| *b == b' ')
        .nth(k)
        .unwrap_or(b"")
}

// The word behind the first k blanks.
pub fn word(s: &[u8], k: usize) -> &[u8] {
    s.split(|b| *b == b' ').nth(k).unwrap_or(b"")
}

// The number of 32 bits that a word says.
pub fn number(word: &[u8]) -> Option<u32> {
    u32::try_from(decimal(word).ok()?).ok()
}

// The number of a request type.
pub fn type_of(word: &[u8]) -> Option<u32> {
    let k = TYPES.iter().position(|name| *name == word)?;
    Some(k as u32 + 1)
}
