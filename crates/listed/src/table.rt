ghost use Rattle.std.specs.Prelude.{◌≡◌, ◌+◌, ◌*◌, ◌^◌, ◌<◌, ◌≤◌, length, nat_lt, position};
ghost use Rattle.std.specs.Option.{option_map};
ghost use Rattle.std.specs.Result.{result_map_both};
ghost use Rattle.signs.specs.declared.reason.Reason.TheVariants.{Unbalanced};
ghost use Rattle.signs.specs.Faults.{answer, ◌⨾◌, family_fault};
ghost use Rattle.signs.specs.Family.{agreeing, sign_sum, width_check};
ghost use Rattle.listed.specs.Listed.{byte_sign, listed, rows_check, bytes_check, columns_check};

use signs::{Fault, Layer, Reason, Sign, check_width};

// The sign that a byte of a table stands for.
fn sign_of(byte: u8) -> Sign
    ensures { result ≡ byte_sign byte }
{
    if byte == 0 { Sign::Plus } else { Sign::Minus }
}

// The first byte that is neither 0 nor 1.
fn first_foreign(bytes: &[u8]) -> Option<usize>
    ensures { result ≡ position (λ byte. nat_lt 1 byte) bytes.now }
{
    bytes.iter().position(|byte| *byte > 1)
}

// Refuses the first byte that is neither 0 nor 1 (3).
fn check_bytes(bytes: &[u8]) -> Result<(), Fault>
    ensures { result ≡ answer (bytes_check bytes.now) tt }
{
    match first_foreign(bytes) {
        Some(place) => Err(Layer::Family.fault(Reason::SignByte, place as u64)),
        None => Ok(()),
    }
}

/// The signs of a family of 2^width columns, row by row, with a byte for each: 0 for plus, 1 for minus.
#[derive(Drop)]
pub(crate) struct SignTable {
    pub(crate) width: u32,
    pub(crate) rows: u32,
    bytes: Vec<u8>,
    ghost wide: { (1 ≤ width) × (width ≤ 6) },
    ghost some: { (2 ≤ rows) × (rows ≤ 128) },
    ghost size: { length bytes.items ≡ rows * 2 ^ width },
}

impl SignTable {
    ghost use Rattle.listed.specs.SignTable.{family_of};

    /// The table of those bytes, or the first of its faults: the width (1), the rows (2), a byte (3).
    pub(crate) fn new(width: u32, rows: u32, bytes: Vec<u8>) -> Result<SignTable, Fault>
        ensures { result_map_both family_of (λ e. e) result ≡ answer (width_check 1 6 width ⨾ rows_check width rows bytes.items ⨾ bytes_check bytes.items) (listed width rows bytes.items) }
    {
        check_width(1, 6, width)?;
        if !(2..=128).contains(&rows) || bytes.len() != (rows as usize) << width {
            return Err(Layer::Family.fault(Reason::Rows, 0));
        }
        check_bytes(&bytes)?;
        Ok(SignTable { width, rows, bytes })
    }

    // Where the byte of a row and a column stands; the end of a row counts as a column.
    fn place(&self, row: u32, column: u32) -> usize
        requires row { row < self.now.rows }
        requires column { column ≤ 2 ^ self.now.width }
        ensures { result ≡ row * 2 ^ self.now.width + column }
    {
        ((row << self.width) + column) as usize
    }

    /// The sign in a row and a column.
    pub(crate) fn sign_at(&self, row: u32, column: u32) -> Sign
        requires row { row < self.now.rows }
        requires column { column < 2 ^ self.now.width }
        ensures { result ≡ (family_of self.now).sign row column }
    {
        sign_of(self.bytes[self.place(row, column)])
    }

    /// The sum of the signs of `count` columns of a row, from `first` on.
    pub(crate) fn run_sum(&self, row: u32, first: u32, count: u32) -> i64
        requires row { row < self.now.rows }
        requires columns { first + count ≤ 2 ^ self.now.width }
        ensures { result ≡ sign_sum (family_of self.now) row first count }
    {
        let start = self.place(row, first);
        // A `for`: of a `sum` of signed numbers it is not known that it stays in bounds.
        let mut total = 0;
        for byte in &self.bytes[start..start + count as usize] {
            total += i64::from(sign_of(*byte));
        }
        total
    }

    // In how many rows two columns have equal signs.
    fn agreeing_rows(&self, a: u32, b: u32) -> u32
        requires a { a < 2 ^ self.now.width }
        requires b { b < 2 ^ self.now.width }
        ensures { result ≡ agreeing (family_of self.now) a b }
    {
        // By 0 and 1: counted by a filter, each row costs a branch that goes either way, and a table takes three times as long.
        (0..self.rows)
            .map(|row| u32::from(self.sign_at(row, a) == self.sign_at(row, b)))
            .sum()
    }

    /// The first two columns that have equal signs in more or less than half of the rows.
    pub(crate) fn first_unbalanced(&self) -> Option<(u32, u32)>
        ensures { option_map (λ p. family_fault Unbalanced (p.0 * 64 + p.1)) result ≡ columns_check self.now.width self.now.rows self.now.bytes.items }
    {
        // The form is a rule of the project: nested loops over columns, left by a label with the pair found.
        let columns = 1 << self.width;
        'columns: {
            for a in 0..columns {
                for b in a + 1..columns {
                    if 2 * self.agreeing_rows(a, b) != self.rows {
                        break 'columns Some((a, b));
                    }
                }
            }
            None
        }
    }
}
