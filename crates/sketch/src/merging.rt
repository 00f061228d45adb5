ghost use Rattle.std.specs.Prelude.{◌≡◌, length};
ghost use Rattle.signs.specs.Faults.{answer};
ghost use Rattle.model.specs.Calls.{AreWithinLimit, add_each, merge_refusal};
ghost use Rattle.sketch.specs.Promises.{tally_of, open_state, Merges};

use crate::{Figures, OpenSketch};
use signs::Fault;
use tables::{FIRST_OTHER_CELL, Table, check_cells, check_length, check_limit, check_same_shape};

// Adds each of the other cells to the cell beside it.
fn add(cells: &mut [i64], others: &[i64])
    requires same { length others.now ≡ length cells.old }
    requires own { AreWithinLimit cells.old }
    requires other { AreWithinLimit others.now }
    ensures { cells.new ≡ add_each cells.old others.now }
{
    // By place: of cells that are written through a zip nothing is known afterwards.
    for (k, other) in others.iter().enumerate() {
        cells[k] += *other;
    }
}

impl OpenSketch {
    // Refuses another sketch for its shape (9), the lengths of the two tables (10), a cell (11) or the gross limit (13).
    fn check_merge(&self, cells: &[i64], other: &Figures, other_cells: &[i64]) -> Result<(), Fault>
        ensures { result ≡ answer (merge_refusal (open_state self.now cells.now) (tally_of other.now) other_cells.now) tt }
    {
        check_same_shape(self.figures.shape, other.shape)?;
        let due = self.figures.entries();
        check_length(cells, due, Table::OwnCells.into())?;
        check_length(other_cells, due, Table::OtherCells.into())?;
        check_cells(cells, self.figures.gross, 0)?;
        check_cells(other_cells, other.gross, FIRST_OTHER_CELL)?;
        check_limit(self.figures.gross + other.gross)
    }

    /// Adds the cells, gross and net of another sketch, of which the figures and cells were taken at one moment.
    ///
    /// Refused by 9, 10, 11 and 13, in this order; nothing changes then.
    pub fn merge(
        &mut self,
        cells: &mut [i64],
        other: &Figures,
        other_cells: &[i64],
    ) -> Result<(), Fault>
        ensures { Merges (open_state self.old cells.old) (open_state self.new cells.new) (tally_of other.now) other_cells.now result }
    {
        self.check_merge(cells, other, other_cells)?;
        add(cells, other_cells);
        self.figures = self.figures.gained(other.gross, other.net);
        Ok(())
    }
}
