//! Entries as they are held, handed over and given out: their records, the check of their texts and names, lists that are handed over,
//! lawful paths and what is left of one.
#![tactic(auto)]

pub mod check;
pub mod filled;
pub mod list;
pub mod path;
pub mod record;
pub mod rest;
pub mod segment;
