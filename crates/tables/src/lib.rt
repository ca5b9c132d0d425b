//! The table of a book: its routes in one list, each before what stands below it.
#![tactic(auto)]

pub mod route_record;
pub mod stored_line;
