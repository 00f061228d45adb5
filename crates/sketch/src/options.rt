ghost use Rattle.std.specs.Prelude.{◌≡◌, List, ℤ};
ghost use Rattle.model.specs.Calls.{confirmed};
ghost use Rattle.sketch.specs.Promises.{tally_of, open_state, held_state, Releases, Withdraws};

use crate::seeded::Seeded;
use crate::{Figures, HeldSketch, OpenSketch, Refused};
use model::Booking;
use signs::{Fault, SignFamily, check_interval};

impl HeldSketch {
    /// The figures as they stand, the option counted.
    pub fn figures(&self) -> Figures
        ensures { result ≡ self.now.figures }
    {
        self.figures
    }

    /// Makes the option a booking like any other. Never refused.
    pub fn confirm(mut self) -> OpenSketch
        ensures { (cells : List ℤ) → open_state result cells ≡ confirmed (held_state self cells) }
    {
        self.spent = true;
        OpenSketch {
            figures: self.figures,
        }
    }

    // Checks the tables, and takes the option off the cells: the figures then.
    fn released<F: SignFamily>(
        &self,
        seeded: &Seeded<F>,
        cells: &mut [i64],
    ) -> Result<Figures, Fault>
        ensures { Releases (F.meaning seeded.now.family.now) seeded.now.seeds.now self.now.option (tally_of self.now.figures) cells.old result cells.new }
    {
        seeded.check_tables(&self.figures, cells)?;
        check_interval(seeded.family.width(), &self.option.interval())?;
        let opposite = Booking {
            weight: -self.option.weight,
            ..self.option
        };
        Ok(seeded.book(self.figures, cells, opposite))
    }

    /// Takes the option off cells and net again; the gross gains its mass once more.
    ///
    /// Refused by 10, 5, 11 and 8, in this order; the held sketch comes back then, the option stands, and nothing changes.
    pub fn withdraw<F: SignFamily>(
        mut self,
        family: &F,
        seeds: &[u64],
        cells: &mut [i64],
    ) -> Result<OpenSketch, Refused<HeldSketch>>
        ensures { Withdraws (F.meaning family.now) seeds.now self.option (held_state self cells.old) result cells.new }
    {
        let seeded = Seeded { family, seeds };
        match self.released(&seeded, cells) {
            Ok(figures) => {
                self.spent = true;
                Ok(OpenSketch { figures })
            }
            Err(fault) => Err(Refused {
                sketch: self,
                fault,
            }),
        }
    }
}
