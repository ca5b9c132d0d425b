//! Nests: one route over any tree of children.
#![tactic(auto)]

pub mod nested_route;
