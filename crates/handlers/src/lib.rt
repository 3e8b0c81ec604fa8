// One handler for each kind of request, on the lent tables.
#![tactic(auto)]

pub mod about;
pub mod asking;
pub mod introducing;
pub mod transacting;
pub mod watching;
