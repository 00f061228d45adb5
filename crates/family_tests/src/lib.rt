//! A family that is written outside of the part, what a caller knows of two reasons, and the tests of the families at their edges.

#![tactic(auto)]

#[cfg(test)]
mod edges;
#[cfg(test)]
mod layers;
#[cfg(test)]
mod prints;
mod reasons;
mod turned;

pub use reasons::is_same;
pub use turned::Turned;
