ghost use Rattle.std.specs.Prelude.{◌≡◌, None};
ghost use Rattle.std.specs.Result.{result_map_both};
ghost use Rattle.signs.specs.Faults.{answer};
ghost use Rattle.listed.specs.Listed.{listed, columns_check, listed_refusal};
ghost use Rattle.std.proofs.Common.{arith};
ghost use Rattle.listed.specs.Cells.{listed-Lawful};

use crate::table::SignTable;
use signs::{Block, Fault, Layer, Reason, Sign, SignFamily, check_block, check_seed, check_slot};

/// A family of width 1 to 6 whose signs stand in a table of 2 to 128 rows, a row for each seed, with a byte for each slot: 0 for plus, 1 for
/// minus. That no two columns are unbalanced is the half law.
#[derive(Drop)]
pub struct Listed {
    table: SignTable,
    ghost balanced: { columns_check table.width table.rows table.bytes.items ≡ None },
}

impl Listed {
    ghost use Rattle.listed.specs.SignTable.{family_of};

    /// The family of a table, or the first of its faults: the width (1), the rows (2), a byte (3), two columns (4).
    pub fn new(width: u32, rows: u32, table: Vec<u8>) -> Result<Listed, Fault>
        ensures { result_map_both (λ f. family_of f.table) (λ e. e) result ≡ answer (listed_refusal width rows table.items) (listed width rows table.items) }
    {
        let table = SignTable::new(width, rows, table)?;
        match table.first_unbalanced() {
            Some((a, b)) => {
                Err(Layer::Family.fault(Reason::Unbalanced, u64::from(a) * 64 + u64::from(b)))
            }
            None => Ok(Listed { table }),
        }
    }
}

impl SignFamily for Listed {
    ghost use Rattle.listed.specs.SignTable.{family_of};

    ghost meaning = { λ f. family_of f.table };

    ghost lawful = { λ f. listed-Lawful f.table.width f.table.rows f.table.bytes.items (omega arith) (omega arith) (omega arith) (omega arith) f.balanced };

    fn width(&self) -> u32 {
        self.table.width
    }

    fn seed_count(&self) -> u64 {
        u64::from(self.table.rows)
    }

    fn sign(&self, seed: u64, slot: u32) -> Result<Sign, Fault> {
        check_seed(self.seed_count(), seed)?;
        check_slot(self.table.width, slot)?;
        Ok(self.table.sign_at(seed as u32, slot))
    }

    fn block_sum(&self, seed: u64, block: Block) -> Result<i64, Fault> {
        check_seed(self.seed_count(), seed)?;
        check_block(self.table.width, block)?;
        let first = block.number << block.level;
        Ok(self.table.run_sum(seed as u32, first, 1 << block.level))
    }
}
