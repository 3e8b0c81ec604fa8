// What a request is, with places in its payload for the texts that it holds.
use octets::sizes::MOST_ENTRIES;
use paths::answer::Form;

// A path: the payload's first string, which ends at `end`, and its form.
#[derive(Clone, Copy, Debug, PartialEq, Eq)]
pub struct Path {
    pub end: usize,
    pub form: Form,
}

// A permission entry: the access (none 0, read 1, write 2, both 3) of a domain. The access is two bits in the rule book too, so it stays a number.
#[derive(Clone, Copy, Debug, PartialEq, Eq)]
pub struct Entry {
    pub access: u32,
    pub domain: u32,
}

// The permission entries of a payload: how many there are, and the first of them, as many as a node can have.
#[derive(Clone, Copy, Debug, PartialEq, Eq)]
pub struct Entries {
    pub count: usize,
    pub kept: [Entry; MOST_ENTRIES],
}

// What is asked of a node.
#[derive(Clone, Copy, Debug, PartialEq, Eq)]
pub enum Ask {
    Directory,
    Read,
    GetPerms,
    // the value is the rest of the payload, from an index on
    Write(usize),
    Mkdir,
    Rm,
    SetPerms(Entries),
}

#[derive(Drop, Debug, PartialEq, Eq)]
pub enum Request {
    // no type that the box handles
    Unknown,
    // a malformed payload
    Invalid,
    Ask(Ask, Path),
    // the token is the payload's bytes from `start` to `end`
    Watch {
        path: Path,
        start: usize,
        end: usize,
        depth: Option<u32>,
    },
    Unwatch {
        path: Path,
        start: usize,
        end: usize,
    },
    Start,
    End(bool),
    Introduce {
        domain: u32,
        page: u64,
        channel: u32,
    },
    Release(u32),
    DomainPath(u32),
    IsIntroduced(u32),
    Reset,
}
