ghost use Rattle.std.specs.Prelude.{◌≡◌, ℕ, ◌+◌, ◌^◌, ◌<◌, ◌≤◌, None, length, slice_index};
ghost use Rattle.signs.specs.Faults.{answer};
ghost use Rattle.signs.specs.Family.{interval_check};
ghost use Rattle.model.specs.Calls.{AreWithinLimit, gross_limit, IsLight, mass, signed_mass, gains, add_each, gained_tally, tables_check, open_refusal};
ghost use Rattle.sketch.specs.Promises.{tally_of, Enters};

use crate::checks::{check_booking, mass_of};
use crate::{Figures, Shape};
use model::Booking;
use signs::{Fault, SignFamily, interval_sum};
use tables::{Table, check_cells, check_length, check_seeds, check_shape};

/// A family and the seeds of a sketch's cells, as a call is lent them.
#[derive_where(Clone, Copy)]
pub(crate) struct Seeded<'a, F> {
    pub(crate) family: &'a F,
    pub(crate) seeds: &'a [u64],
}

impl<'a, F: SignFamily> Seeded<'a, F> {
    /// Refuses a shape (9), tables of other lengths than it has (10), or a seed (5).
    pub(crate) fn check_opening(&self, shape: Shape, cells: &[i64]) -> Result<(), Fault>
        ensures { result ≡ answer (open_refusal (F.meaning self.now.family.now) shape.groups shape.columns self.now.seeds.now cells.now) tt }
    {
        check_shape(shape)?;
        let due = shape.groups * shape.columns;
        check_length(self.seeds, due, Table::Seeds.into())?;
        check_length(cells, due, Table::OwnCells.into())?;
        check_seeds(self.family, self.seeds)
    }

    /// Refuses seeds or cells that do not fit the figures, for their lengths (10), a seed (5) or a cell (11).
    pub(crate) fn check_tables(&self, figures: &Figures, cells: &[i64]) -> Result<(), Fault>
        ensures { result ≡ answer (tables_check (F.meaning self.now.family.now) self.now.seeds.now (tally_of figures.now) cells.now) tt }
    {
        let due = figures.entries();
        check_length(self.seeds, due, Table::Seeds.into())?;
        check_length(cells, due, Table::OwnCells.into())?;
        check_seeds(self.family, self.seeds)?;
        check_cells(cells, figures.gross, 0)
    }

    // Adds to each cell the booking's weight times the interval sum at the cell's seed.
    fn add_gains(&self, cells: &mut [i64], booking: Booking)
        requires same { length self.now.seeds.now ≡ length cells.old }
        requires known { (k : ℕ) → k < length self.now.seeds.now → slice_index self.now.seeds.now k < (F.meaning self.now.family.now).seeds }
        requires own { AreWithinLimit cells.old }
        requires some { booking.from < booking.to }
        requires within { booking.to ≤ 2 ^ (F.meaning self.now.family.now).width }
        requires light { IsLight booking }
        ensures { cells.new ≡ add_each cells.old (gains (F.meaning self.now.family.now) self.now.seeds.now booking) }
    {
        let weight = i64::from(booking.weight);
        // By place: of cells that are written through a zip nothing is known afterwards.
        for (k, seed) in self.seeds.iter().enumerate() {
            let sum = interval_sum(self.family, *seed, booking.interval()).unwrap();
            cells[k] += weight * sum;
        }
    }

    /// Books the weight in the cells, and gives the figures with it.
    pub(crate) fn book(&self, figures: Figures, cells: &mut [i64], booking: Booking) -> Figures
        requires tables { tables_check (F.meaning self.now.family.now) self.now.seeds.now (tally_of figures) cells.old ≡ None }
        requires interval { interval_check (F.meaning self.now.family.now).width booking.from booking.to ≡ None }
        requires light { IsLight booking }
        requires room { figures.gross + mass booking ≤ gross_limit }
        ensures figures { tally_of result ≡ gained_tally (tally_of figures) (mass booking) (signed_mass booking) }
        ensures table { cells.new ≡ add_each cells.old (gains (F.meaning self.now.family.now) self.now.seeds.now booking) }
    {
        let net = i64::from(booking.weight) * i64::from(booking.to - booking.from);
        self.add_gains(cells, booking);
        figures.gained(mass_of(booking), net)
    }

    /// Checks a booking that needs room for `times` its mass, a factor and no choice of the call, and books it: the figures then.
    pub(crate) fn enter(
        &self,
        figures: Figures,
        cells: &mut [i64],
        times: u64,
        booking: Booking,
    ) -> Result<Figures, Fault>
        requires { (1 ≤ times) × (times ≤ 2) }
        ensures { Enters (F.meaning self.now.family.now) self.now.seeds.now times booking (tally_of figures) cells.old result cells.new }
    {
        self.check_tables(&figures, cells)?;
        check_booking(self.family, times, figures.gross, booking)?;
        Ok(self.book(figures, cells, booking))
    }
}
