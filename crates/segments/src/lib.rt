//! The segment kinds of a route: what stands behind `PossibleRouteMatch`.
#![tactic(auto)]

pub mod as_path;
pub mod fixed_kind;
pub mod kind;
pub mod of_kind;
pub mod param_segments;
pub mod segment_kind;
pub mod static_segment;
pub mod unit;
