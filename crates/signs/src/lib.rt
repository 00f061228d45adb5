//! Families of signs over numbered slots: what one is, the sum of its signs over any interval, and the offset layer over any of them.

#![tactic(auto)]

mod checks;
mod family;
mod faults;
mod intervals;
mod offsets;
mod reason;

pub use checks::{check_block, check_interval, check_seed, check_slot, check_width};
pub use family::{Block, Sign, SignFamily};
pub use faults::{Fault, Layer};
pub use intervals::interval_sum;
pub use offsets::Offset;
pub use reason::Reason;
