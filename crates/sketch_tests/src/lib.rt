//! The sketch's calls and the overlap at their edges, and the law as a caller uses it.

#![tactic(auto)]

#[cfg(test)]
mod bookings;
#[cfg(test)]
mod calls;
mod client;
#[cfg(test)]
mod estimates;

pub use client::book_once;
