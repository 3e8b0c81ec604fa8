// The calls that the daemon's C side makes. The crate haabuvilk_c exports them.
#![tactic(auto)]

pub mod checks;
pub mod event_message;
pub mod fresh;
pub mod refusal;
pub mod request;
pub mod sizes;
