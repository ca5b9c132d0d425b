//! Flat lists of segment kinds: what a list takes of a path, what it reads of it, and the entries that it generates.
#![tactic(auto)]

pub mod chain;
pub mod kept;
pub mod kind_list;
