// Paths: the classes of their bytes, their form, their names, and how two of them lie.
#![tactic(auto)]

pub mod answer;
pub mod classes;
pub mod form;
pub mod full;
pub mod names;
pub mod relation;
