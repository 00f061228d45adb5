//! Sketches of slot bookings over any family of signs, with options and merging. The caller keeps the tables of seeds and cells and lends them
//! at every call.

#![tactic(auto)]

ghost use Rattle.std.specs.Prelude.{◌≡◌, ◌+◌, ◌%◌, ◌≤◌, IsTrue, unsigned_abs};
ghost use Rattle.model.specs.Calls.{gross_limit, IsLight, mass};

use signs::Fault;

mod checks;
mod merging;
mod opening;
mod options;
mod posting;
mod seeded;
mod tally;

pub use model::{Booking, Shape};

/// The figures of a sketch: its shape, the gross (the masses of all that was ever booked or taken off again) and the net (the sum of the
/// standing weights over all slots).
#[derive(Clone, Copy)]
pub struct Figures {
    shape: Shape,
    gross: u64,
    net: i64,
    ghost shaped: { (shape.groups % 2 ≡ 1) × (shape.groups ≤ 15) × (1 ≤ shape.columns) × (shape.columns ≤ 32) },
    ghost limited: { gross ≤ gross_limit },
    ghost inside: { unsigned_abs net ≤ gross },
}

/// A sketch that takes bookings.
#[derive(Drop)]
pub struct OpenSketch {
    figures: Figures,
}

/// A sketch under option. It can be let go only once it is spent, which is what `confirm` and an accepted `withdraw` do to it.
pub struct HeldSketch {
    figures: Figures,
    option: Booking,
    // A flag, and no `Option` for the option: that would need an answer for a sketch under none, which no caller has.
    spent: bool,
    ghost light: { IsLight option },
    ghost room: { figures.gross + mass option ≤ gross_limit },
}

impl Drop for HeldSketch {
    fn drop(self)
        requires { IsTrue self.spent }
    {
        let HeldSketch {
            figures: _,
            option: _,
            spent: _,
        } = self;
    }
}

/// Why a call was refused that takes the sketch by value, and the sketch, as it was.
#[derive(Drop)]
pub struct Refused<S> {
    pub sketch: S,
    pub fault: Fault,
}

/// The fault alone; the sketch is let go.
impl From<Refused<OpenSketch>> for Fault {
    ghost from_gives = { λ refused fault. fault ≡ refused.fault };

    fn from(refused: Refused<OpenSketch>) -> Fault {
        refused.fault
    }
}
