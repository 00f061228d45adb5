//! The checks of shapes and of lent tables that calls on sketches share: each refuses with the number and the place of its rule.

#![tactic(auto)]

ghost use Rattle.std.specs.Prelude.{◌≡◌, nat_le, nat_lt, position, unsigned_abs};
ghost use Rattle.signs.specs.Faults.{answer};
ghost use Rattle.model.specs.Calls.{shape_check, same_shape_check, length_check, seeds_check, cells_check, limit_check};
ghost use Rattle.tables.specs.Table.{table_number};

use model::Shape;
use signs::{Fault, Layer, Reason, SignFamily};

/// The tables that a caller lends, under their numbers, which are the places of refusal 10.
#[derive(Clone, Copy, PartialEq, Eq, Debug)]
pub enum Table {
    Seeds = 0,
    OwnCells = 1,
    OtherCells = 2,
    Totals = 3,
}

impl From<Table> for u64 {
    ghost from_gives = { λ table n. n ≡ table_number table };

    fn from(table: Table) -> u64 {
        table as u64
    }
}

/// Where the places of the other cells begin in refusal 11.
pub const FIRST_OTHER_CELL: u16 = 480;

/// The largest gross that a sketch may have.
pub const GROSS_LIMIT: u64 = 1 << 26;

/// Refuses groups that are even or above 15, and columns outside of 1 to 32 (9).
pub fn check_shape(shape: Shape) -> Result<(), Fault>
    ensures { result ≡ answer (shape_check shape.groups shape.columns) tt }
{
    if shape.groups % 2 != 1 || shape.groups > 15 || !(1..=32).contains(&shape.columns) {
        return Err(Layer::Sketch.fault(Reason::Shape, 0));
    }
    Ok(())
}

/// Refuses two shapes that differ (9).
pub fn check_same_shape(own: Shape, other: Shape) -> Result<(), Fault>
    ensures { result ≡ answer (same_shape_check own.groups own.columns other.groups other.columns) tt }
{
    if own != other {
        return Err(Layer::Sketch.fault(Reason::Shape, 0));
    }
    Ok(())
}

/// Refuses a table that has not as many entries as are due (10). Its number is any, and not only that of a `Table`.
pub fn check_length<T>(table: &[T], due: usize, number: u64) -> Result<(), Fault>
    ensures { result ≡ answer (length_check number due table.now) tt }
{
    if table.len() != due {
        return Err(Layer::Sketch.fault(Reason::Table, number));
    }
    Ok(())
}

// The first seed that is not below the number of seeds.
fn first_unknown(seeds: &[u64], count: u64) -> Option<usize>
    ensures { result ≡ position (λ seed. nat_le count seed) seeds.now }
{
    seeds.iter().position(|seed| *seed >= count)
}

/// Refuses the first seed that is not one of the family's (5).
pub fn check_seeds<F: SignFamily>(family: &F, seeds: &[u64]) -> Result<(), Fault>
    ensures { result ≡ answer (seeds_check (F.meaning family.now) seeds.now) tt }
{
    match first_unknown(seeds, family.seed_count()) {
        Some(place) => Err(Layer::Family.fault(Reason::Seed, place as u64)),
        None => Ok(()),
    }
}

// The first cell that is larger in size than the gross.
fn first_foreign(cells: &[i64], gross: u64) -> Option<usize>
    ensures { result ≡ position (λ cell. nat_lt gross (unsigned_abs cell)) cells.now }
{
    cells.iter().position(|cell| cell.unsigned_abs() > gross)
}

/// Refuses the first cell that is larger in size than the gross (11). The first of the cells has the place `from`.
pub fn check_cells(cells: &[i64], gross: u64, from: u16) -> Result<(), Fault>
    ensures { result ≡ answer (cells_check from gross cells.now) tt }
{
    match first_foreign(cells, gross) {
        Some(place) => Err(Layer::Sketch.fault(
            Reason::ForeignCells,
            u64::from(from) + place as u64,
        )),
        None => Ok(()),
    }
}

/// Refuses a gross above the limit (13).
pub fn check_limit(gross: u64) -> Result<(), Fault>
    ensures { result ≡ answer (limit_check gross) tt }
{
    if gross > GROSS_LIMIT {
        return Err(Layer::Sketch.fault(Reason::Full, 0));
    }
    Ok(())
}
