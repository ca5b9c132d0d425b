//! Trees of routes: the call that finds a link's route in one, and a tree's lines and kept lists by number.
#![tactic(auto)]

pub mod below;
pub mod by_ref;
pub mod route;
pub mod tree;
