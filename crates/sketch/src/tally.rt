ghost use Rattle.std.specs.Prelude.{◌≡◌, ◌+◌, ◌≤◌, unsigned_abs};
ghost use Rattle.model.specs.Calls.{entries, gained_tally, gross_limit};
ghost use Rattle.sketch.specs.Promises.{tally_of};

use crate::{Figures, Shape};

impl Figures {
    /// The shape.
    pub fn shape(&self) -> Shape
        ensures groups { result.groups ≡ (tally_of self.now).groups }
        ensures columns { result.columns ≡ (tally_of self.now).columns }
    {
        self.shape
    }

    /// How many seeds the sketch has, and how many cells.
    pub fn entries(&self) -> usize
        ensures { result ≡ entries (tally_of self.now) }
    {
        let Shape { groups, columns } = self.shape;
        groups * columns
    }

    /// The number of groups, odd and 1 to 15.
    pub fn groups(&self) -> usize
        ensures { result ≡ (tally_of self.now).groups }
    {
        self.shape.groups
    }

    /// The columns of each group, 1 to 32.
    pub fn columns(&self) -> usize
        ensures { result ≡ (tally_of self.now).columns }
    {
        self.shape.columns
    }

    /// The masses of all bookings and withdrawals together, at most 2^26.
    pub fn gross(&self) -> u64
        ensures { result ≡ (tally_of self.now).gross }
    {
        self.gross
    }

    /// The sum of the standing weights, at most the gross in size.
    pub fn net(&self) -> i64
        ensures { result ≡ (tally_of self.now).net }
    {
        self.net
    }

    // The figures with so much more gross and net.
    pub(crate) fn gained(self, gross: u64, net: i64) -> Figures
        requires room { self.gross + gross ≤ gross_limit }
        requires net { unsigned_abs net ≤ gross }
        ensures { tally_of result ≡ gained_tally (tally_of self) gross net }
    {
        Figures {
            shape: self.shape,
            gross: self.gross + gross,
            net: self.net + net,
        }
    }
}
