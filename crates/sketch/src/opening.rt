ghost use Rattle.std.specs.Prelude.{◌≡◌};
ghost use Rattle.model.specs.Law.{SketchLaw};
ghost use Rattle.sketch.specs.Promises.{Opens};

use crate::seeded::Seeded;
use crate::{Figures, OpenSketch, Shape};
use signs::{Fault, SignFamily};

impl OpenSketch {
    /// A sketch with nothing booked, over the caller's tables; every cell is set to 0.
    ///
    /// Refused by 9, 10 and 5, in this order; the cells are as they were then.
    ///
    /// The clause `law` is what a sketch is for: over every run of calls its cells hold exactly what was booked, and the estimate has no bias.
    pub fn open<F: SignFamily>(
        family: &F,
        shape: Shape,
        seeds: &[u64],
        cells: &mut [i64],
    ) -> Result<OpenSketch, Fault>
        ensures opens { Opens (F.meaning family.now) shape.groups shape.columns seeds.now cells.old result cells.new }
        ensures law { SketchLaw (F.meaning family.now) }
    {
        let seeded = Seeded { family, seeds };
        seeded.check_opening(shape, cells)?;
        cells.fill(0);
        let figures = Figures {
            shape,
            gross: 0,
            net: 0,
        };
        Ok(OpenSketch { figures })
    }

    /// The figures as they stand.
    pub fn figures(&self) -> Figures
        ensures { result ≡ self.now.figures }
    {
        self.figures
    }
}
