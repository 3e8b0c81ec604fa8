// Node slots: the fields of a table's entries, on lent bytes.
#![tactic(auto)]

pub mod fields;
pub mod writing;
