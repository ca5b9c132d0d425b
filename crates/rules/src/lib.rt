//! What links mean: entries, taking, spelling, keeping, trees, lines, answers and refusals. The definitions stand in specs/; here
//! are the plain values that calls give out, and the theorems about the definitions.
#![tactic(auto)]

pub mod laws;
pub mod mode;
pub mod records;
pub mod refusal;
pub mod segment;
pub mod values;
