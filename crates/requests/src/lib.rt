// A message's request, taken apart and handed to its handler.
#![tactic(auto)]

pub mod control;
pub mod handle;
pub mod node;
pub mod path;
pub mod place;
