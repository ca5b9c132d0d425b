//! A user of the library: a segment kind and a tree of its own, and what routes of them and of the shipped kinds read.
#![tactic(auto)]

pub mod draft;
pub mod plat_segment;
pub mod replat;
#[cfg(test)]
mod tests;
