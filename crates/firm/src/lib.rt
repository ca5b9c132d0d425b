//! The firm's tree of pages, and a table of its links with what the rules say of each.
#![tactic(auto)]

pub mod outcome;
pub mod pages;
pub mod table;
#[cfg(test)]
mod tests;
pub mod texts;
