// Watches, on lent bytes.
#![tactic(auto)]

pub mod changes;
pub mod checks;
pub mod places;
