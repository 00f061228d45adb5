//! The family whose signs stand in a table.

#![tactic(auto)]

mod family;
mod table;

pub use family::Listed;
