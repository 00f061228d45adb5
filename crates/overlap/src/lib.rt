//! The overlap of two sketches, estimated from their cells, which the caller keeps and lends beside the figures.

#![tactic(auto)]

ghost use Rattle.std.specs.List.{find};
ghost use Rattle.std.specs.Prelude.{◌≡◌, suc, ◌*◌, ◌≤◌, take, drop, length, pos, ◌*ℤ◌, IfOk, int_le, slice_index_or};
ghost use Rattle.signs.specs.Faults.{answer};
ghost use Rattle.signs.specs.Sums.{sum};
ghost use Rattle.model.specs.Calls.{AreWithinLimit};
ghost use Rattle.model.specs.Middle.{smaller, greater, central, middle_of, Middle};
ghost use Rattle.model.specs.Overlap.{overlap_refusal, overlap_answer, overlap_totals};
ghost use Rattle.sketch.specs.Promises.{tally_of};

pub use model::Estimate;
use signs::Fault;
use sketch::Figures;
use tables::{FIRST_OTHER_CELL, Table, check_cells, check_length, check_same_shape};

// How many totals are smaller than `pivot`, and how many are greater.
fn ranks(totals: &[i64], pivot: i64) -> (usize, usize)
    ensures smaller { result.0 ≡ smaller int_le totals.now pivot }
    ensures greater { result.1 ≡ greater int_le totals.now pivot }
{
    let below = totals.iter().filter(|total| **total < pivot).count();
    let above = totals.iter().filter(|total| **total > pivot).count();
    (below, above)
}

// Whether at most half of the other totals are smaller than this one, and at most half greater.
fn is_central(totals: &[i64], pivot: i64) -> bool
    ensures { result ≡ central int_le totals.now pivot }
{
    let half = totals.len().saturating_sub(1) / 2;
    let (below, above) = ranks(totals, pivot);
    below <= half && above <= half
}

// The first total that is central, where there is one.
fn first_central(totals: &[i64]) -> Option<i64>
    ensures { result ≡ find (λ total. central int_le totals.now total) totals.now }
{
    totals
        .iter()
        .copied()
        .find(|total| is_central(totals, *total))
}

// The middle of the totals: no sorting, and no memory.
fn middle_of(totals: &[i64]) -> i64
    ensures { result ≡ middle_of totals.now }
{
    first_central(totals).unwrap_or(0)
}

// The cells of a group.
fn cells_of(cells: &[i64], columns: usize, group: usize) -> &[i64]
    requires { suc group * columns ≤ length cells.now }
    ensures { result.now ≡ take columns (drop (group * columns) cells.now) }
{
    let start = group * columns;
    &cells[start..start + columns]
}

// The sum of the products of the cells beside one another, in one group of two sketches.
fn total_of(cells: &[i64], others: &[i64]) -> i64
    requires same { length others.now ≡ length cells.now }
    requires few { length cells.now ≤ 32 }
    requires own { AreWithinLimit cells.now }
    requires other { AreWithinLimit others.now }
    ensures { result ≡ sum (length cells.now) (λ j. slice_index_or cells.now j (pos 0) *ℤ slice_index_or others.now j (pos 0)) }
{
    // A `for`: of a `sum` of signed numbers it is not known that it stays in bounds.
    let mut total = 0;
    for (cell, other) in cells.iter().zip(others) {
        total += cell * other;
    }
    total
}

// Refuses two sketches for their shapes (9), the lengths of the three tables (10) or a cell (11).
fn check_overlap(
    first: &Figures,
    first_cells: &[i64],
    second: &Figures,
    second_cells: &[i64],
    totals: &[i64],
) -> Result<(), Fault>
    ensures { result ≡ answer (overlap_refusal (tally_of first.now) first_cells.now (tally_of second.now) second_cells.now totals.now) tt }
{
    let due = first.entries();
    check_same_shape(first.shape(), second.shape())?;
    check_length(first_cells, due, Table::OwnCells.into())?;
    check_length(second_cells, due, Table::OtherCells.into())?;
    check_length(totals, first.groups(), Table::Totals.into())?;
    check_cells(first_cells, first.gross(), 0)?;
    check_cells(second_cells, second.gross(), FIRST_OTHER_CELL)
}

/// Writes for each group the sum over its columns of the products of the two cells, and answers the columns and the middle of these totals.
/// The estimate of the overlap is the middle divided by the columns.
///
/// Refused by 9, 10 and 11, in this order; the totals are as they were then.
pub fn overlap(
    first: &Figures,
    first_cells: &[i64],
    second: &Figures,
    second_cells: &[i64],
    totals: &mut [i64],
) -> Result<Estimate, Fault>
    ensures answers { result ≡ overlap_answer (tally_of first.now) first_cells.now (tally_of second.now) second_cells.now totals.old }
    ensures table { totals.new ≡ overlap_totals (tally_of first.now) first_cells.now (tally_of second.now) second_cells.now totals.old }
    ensures middle { IfOk result (λ e. Middle totals.new e.middle) }
{
    check_overlap(first, first_cells, second, second_cells, totals)?;
    let columns = first.columns();
    for (group, total) in totals.iter_mut().enumerate() {
        *total = total_of(
            cells_of(first_cells, columns, group),
            cells_of(second_cells, columns, group),
        );
    }
    Ok(Estimate {
        columns,
        middle: middle_of(totals),
    })
}
