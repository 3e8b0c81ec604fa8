// Transactions and their changes, on lent bytes; their copies are node tables of their own.
#![tactic(auto)]

pub mod changes;
pub mod checks;
pub mod places;
