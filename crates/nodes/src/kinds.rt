// What a node request answers.
use replies::kinds::Errno;

// What was done to the path that was asked for: a written one was there, or was made with so many parents.
#[derive(Clone, Copy, Debug, PartialEq, Eq)]
pub enum Effect {
    Nothing,
    Wrote(usize),
    Removed,
}

// What a request that succeeds gives: how long its payload is, and what it did.
#[derive(Clone, Copy, Debug, PartialEq, Eq)]
pub struct Given {
    pub length: usize,
    pub effect: Effect,
}

// What a request is answered. One that is refused does nothing.
pub type Answer = Result<Given, Errno>;
