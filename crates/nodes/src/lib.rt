// The seven node requests on one table.
#![tactic(auto)]

pub mod answers;
pub mod changing;
pub mod kinds;
pub mod looking;
pub mod permitting;
pub mod removing;
