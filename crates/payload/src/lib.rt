// A request's type and payload taken apart.
#![tactic(auto)]

pub mod answer;
pub mod asks;
pub mod bare;
pub mod cursor;
pub mod domain;
pub mod entries;
pub mod given;
pub mod kind;
pub mod numbers;
pub mod parse;
pub mod parts;
pub mod watch;
