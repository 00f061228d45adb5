//! Calls as the tests make them, and what they answer.

use signs::{Fault, SignFamily};
use sketch::{Booking, OpenSketch, Shape};

pub(crate) fn booking(from: u32, to: u32, weight: i32) -> Booking {
    Booking { from, to, weight }
}

pub(crate) fn shape(groups: usize, columns: usize) -> Shape {
    Shape { groups, columns }
}

/// Holds an option and confirms it at once, unless it is refused.
pub(crate) fn take<F: SignFamily>(
    sketch: OpenSketch,
    family: &F,
    seeds: &[u64],
    cells: &mut [i64],
    option: Booking,
) -> Result<OpenSketch, Fault> {
    Ok(sketch.hold(family, seeds, cells, option)?.confirm())
}
