// How a request is answered, and the reply's frame around it.
#![tactic(auto)]

pub mod frame;
pub mod kinds;
