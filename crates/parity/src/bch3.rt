ghost use Rattle.std.specs.Prelude.{◌≡◌, ◌*◌, ◌^◌, ◌<◌, ◌≤◌};
ghost use Rattle.std.specs.Result.{result_map_both};
ghost use Rattle.signs.specs.Faults.{answer};
ghost use Rattle.signs.specs.Family.{block_refusal, block_answer, width_check};
ghost use Rattle.parity.specs.Parity.{bch3, bch3_block_sum};
ghost use Rattle.std.proofs.Common.{arith};
ghost use Rattle.parity.specs.Half.{bch3-Lawful};

use crate::bits::{bch3_ones, sign_by, signed};
use signs::{Block, Fault, Sign, SignFamily, check_block, check_seed, check_slot, check_width};

/// BCH3, of width 1 to 24, with 2^(width + 1) seeds. Plus where the seed's lowest bit and the bits that its others share with the slot hold an
/// even number of ones together.
#[derive(Clone, Copy)]
pub struct Bch3 {
    width: u32,
    ghost ok: { (1 ≤ width) × (width ≤ 24) },
}

impl Bch3 {
    /// The family of that width; a width outside of 1 to 24 is refused (1).
    pub fn new(width: u32) -> Result<Bch3, Fault>
        ensures { result_map_both (λ f. bch3 f.width) (λ e. e) result ≡ answer (width_check 1 24 width) (bch3 width) }
    {
        check_width(1, 24, width)?;
        Ok(Bch3 { width })
    }
}

// The closed rule: 0 where 2^level does not divide the seed without its lowest bit, else 2^level times the first slot's sign.
fn closed_sum(seed: u64, block: Block) -> i64
    requires level { block.level < 32 }
    requires number { block.number * 2 ^ block.level < 2 ^ 32 }
    ensures { result ≡ bch3_block_sum seed block.level block.number }
{
    if (seed / 2).trailing_zeros() < block.level {
        return 0;
    }
    signed(
        1 << block.level,
        sign_by(bch3_ones(seed, block.number << block.level)),
    )
}

// Like EH3's impl but for sign and rule: a trait over both would have more members than the lines that it saves.
impl SignFamily for Bch3 {
    ghost meaning = { λ f. bch3 f.width };

    ghost lawful = { λ f. bch3-Lawful f.width (omega arith) (omega arith) };

    fn width(&self) -> u32 {
        self.width
    }

    fn seed_count(&self) -> u64 {
        1 << (self.width + 1)
    }

    fn sign(&self, seed: u64, slot: u32) -> Result<Sign, Fault> {
        check_seed(self.seed_count(), seed)?;
        check_slot(self.width, slot)?;
        Ok(sign_by(bch3_ones(seed, slot)))
    }

    fn block_sum(&self, seed: u64, block: Block) -> Result<i64, Fault>
        ensures is { result ≡ block_answer (bch3 self.now.width) seed block.level block.number }
        ensures closed { result ≡ answer (block_refusal (bch3 self.now.width) seed block.level block.number) (bch3_block_sum seed block.level block.number) }
    {
        check_seed(self.seed_count(), seed)?;
        check_block(self.width, block)?;
        Ok(closed_sum(seed, block))
    }
}
