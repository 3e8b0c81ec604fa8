// Whether the bytes of a node table are sound: the check that every call makes first.
#![tactic(auto)]

pub mod answer;
pub mod chain;
pub mod entries;
pub mod pairs;
pub mod slot;
pub mod table;
