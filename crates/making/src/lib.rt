// The node table changed: nodes made, and removed.
#![tactic(auto)]

pub mod free;
pub mod making;
pub mod removing;
