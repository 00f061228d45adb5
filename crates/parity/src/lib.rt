//! The published families BCH3 and EH3, whose sign is the parity of the bits that a seed and a slot share.

#![tactic(auto)]

mod bch3;
mod bits;
mod eh3;
mod figures;

pub use bch3::Bch3;
pub use eh3::Eh3;
pub use figures::worked_figures;
