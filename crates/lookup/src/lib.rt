// The node table read: paths, rights, children and the release walk, on the bytes of a sound table.
#![tactic(auto)]

pub mod children;
pub mod listing;
pub mod owned;
pub mod reach;
pub mod rights;
