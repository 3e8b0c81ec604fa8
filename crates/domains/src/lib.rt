// The introduced domains, on lent bytes.
#![tactic(auto)]

pub mod changes;
pub mod checks;
pub mod freeing;
pub mod places;
