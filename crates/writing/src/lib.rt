//! Writing links: the variants of a list with optional entries, and the paths of a list by number, with values from a table.
#![tactic(auto)]

pub mod entry;
pub mod paths;
pub mod piece;
pub mod values;
