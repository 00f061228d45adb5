ghost use Rattle.sketch.specs.Promises.{open_state, Posts, Holds};

use crate::seeded::Seeded;
use crate::{HeldSketch, OpenSketch, Refused};
use model::Booking;
use signs::{Fault, SignFamily};

impl OpenSketch {
    /// Books a weight on an interval of slots: every cell gains the weight times the interval sum at its seed, the gross the booking's mass, and
    /// the net the mass with the weight's sign.
    ///
    /// Refused by 10, 5, 11, 12, 8 and 13, in this order; nothing changes then.
    pub fn post<F: SignFamily>(
        &mut self,
        family: &F,
        seeds: &[u64],
        cells: &mut [i64],
        booking: Booking,
    ) -> Result<(), Fault>
        ensures { Posts (F.meaning family.now) seeds.now booking (open_state self.old cells.old) (open_state self.new cells.new) result }
    {
        let seeded = Seeded { family, seeds };
        self.figures = seeded.enter(self.figures, cells, 1, booking)?;
        Ok(())
    }

    /// Books an option, which `confirm` or `withdraw` has to end. The gross needs room for its mass twice, since a withdrawal counts it again.
    ///
    /// Refused by 10, 5, 11, 12, 8 and 13, in this order; the open sketch comes back then, and nothing changes.
    pub fn hold<F: SignFamily>(
        self,
        family: &F,
        seeds: &[u64],
        cells: &mut [i64],
        booking: Booking,
    ) -> Result<HeldSketch, Refused<OpenSketch>>
        ensures { Holds (F.meaning family.now) seeds.now booking (open_state self cells.old) result cells.new }
    {
        let seeded = Seeded { family, seeds };
        // As in `withdraw`, where both arms need the sketch.
        match seeded.enter(self.figures, cells, 2, booking) {
            Ok(figures) => Ok(HeldSketch {
                figures,
                option: booking,
                spent: false,
            }),
            Err(fault) => Err(Refused {
                sketch: self,
                fault,
            }),
        }
    }
}
