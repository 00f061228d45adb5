ghost use Rattle.std.specs.Prelude.{◌≡◌, map, OnOk};
ghost use Rattle.model.specs.Choices.{cell_of};
ghost use Rattle.model.specs.Standing.{weight_at};

use signs::{Fault, SignFamily};
use sketch::{Booking, OpenSketch, Shape};

/// Opens a sketch and posts one booking on it. What its cells are then is proved by the law that `open` promises, and the calls' contracts
/// alone: the sum over all slots of the booking's weight there times the sign that the cell's seed gives the slot.
pub fn book_once<F: SignFamily>(
    family: &F,
    shape: Shape,
    seeds: &[u64],
    cells: &mut [i64],
    booking: Booking,
) -> Result<OpenSketch, Fault>
    ensures { OnOk result (cells.new ≡ map (cell_of (F.meaning family.now) (weight_at booking)) seeds.now) }
{
    let mut sketch = OpenSketch::open(family, shape, seeds, cells)?;
    sketch.post(family, seeds, cells, booking)?;
    Ok(sketch)
}
