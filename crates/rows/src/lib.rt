//! Trees beside one another: a pair of trees, and a row of trees of one type.
#![tactic(auto)]

pub mod behind;
pub mod pair;
pub mod row;
