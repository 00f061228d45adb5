//! The sketch as mathematics: what each of its calls refuses and makes, whole runs of calls, and the law over them. The definitions and their
//! proofs are the crate; the code has only the types that the calls take and answer.

#![tactic(auto)]

ghost use Rattle.std.specs.Prelude.{◌≡◌};

use std::ops::Range;

/// A weight on the slots from `from` up to but not including `to`.
#[derive(Clone, Copy, PartialEq, Eq, Debug)]
pub struct Booking {
    pub from: u32,
    pub to: u32,
    pub weight: i32,
}

impl Booking {
    /// The slots that the weight is on, as an interval.
    pub fn interval(&self) -> Range<u32>
        ensures start { result.start ≡ self.now.from }
        ensures end { result.end ≡ self.now.to }
    {
        self.from..self.to
    }
}

/// The shape of a sketch: its groups, and the columns of each.
#[derive(Clone, Copy, PartialEq, Eq, Debug)]
pub struct Shape {
    pub groups: usize,
    pub columns: usize,
}

/// An estimate of the overlap of two sketches: the middle of the groups' totals, still to be divided by the columns.
#[derive(Clone, Copy, PartialEq, Eq, Debug)]
pub struct Estimate {
    pub columns: usize,
    pub middle: i64,
}
