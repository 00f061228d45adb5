ghost use Rattle.std.specs.Prelude.{◌≡◌, ◌+◌, ◌*◌, ◌%◌, ◌^◌, ◌<◌, ◌≤◌, unsigned_abs};
ghost use Rattle.std.specs.Result.{result_map_both};
ghost use Rattle.signs.specs.Faults.{answer};
ghost use Rattle.signs.specs.Family.{block_refusal, block_answer};
ghost use Rattle.parity.specs.Parity.{bch3_ones, pairs, zero_pairs, eh3, eh3_even_sum, eh3_block_sum, eh3_width_check};
ghost use Rattle.std.proofs.Common.{arith};
ghost use Rattle.parity.specs.Half.{eh3-Lawful};

use crate::bits::{bch3_ones, sign_by, signed};
use signs::{
    Block, Fault, Layer, Reason, Sign, SignFamily, check_block, check_seed, check_slot, check_width,
};

/// EH3, of even width 2 to 24, with BCH3's seeds. It turns BCH3's sign once for each pair of the slot's bits, 2k and 2k + 1, that holds a one.
#[derive(Clone, Copy)]
pub struct Eh3 {
    width: u32,
    ghost ok: { (2 ≤ width) × (width ≤ 24) },
    ghost even: { width % 2 ≡ 0 },
}

impl Eh3 {
    /// The family of that width; a width outside of 2 to 24, and an odd one, is refused (1).
    pub fn new(width: u32) -> Result<Eh3, Fault>
        ensures { result_map_both (λ f. eh3 f.width) (λ e. e) result ≡ answer (eh3_width_check width) (eh3 width) }
    {
        check_width(2, 24, width)?;
        if width % 2 != 0 {
            return Err(Layer::Family.fault(Reason::Width, 0));
        }
        Ok(Eh3 { width })
    }
}

// How many of a number's sixteen pairs of bits hold a one.
fn pair_count(x: u32) -> u32
    ensures is { result ≡ pairs 16 x }
    ensures few { result ≤ 16 }
{
    ((x | x / 2) & 0x5555_5555).count_ones()
}

// The ones by whose parity EH3's sign goes: BCH3's, and one for each pair of the slot that holds a one.
fn eh3_ones(seed: u64, slot: u32) -> u32
    ensures is { result ≡ bch3_ones seed slot + pairs 16 slot }
    ensures few { result ≤ 49 }
{
    bch3_ones(seed, slot) + pair_count(slot)
}

// How many of a number's lowest `half` pairs of bits are both zero.
fn zero_pair_count(x: u32, half: u32) -> u32
    requires { half ≤ 12 }
    ensures is { result ≡ zero_pairs half x }
    ensures few { result ≤ half }
{
    half - pair_count(x % (1 << (2 * half)))
}

// The sum over a block of level 2 × half: 2^half times the first slot's sign, turned once for each of the lowest `half` pairs of the seed's
// bits but the lowest that are both zero.
fn even_sum(seed: u64, half: u32, number: u32) -> i64
    requires seed { seed < 2 ^ 25 }
    requires half { half ≤ 12 }
    requires number { number * 4 ^ half < 2 ^ 32 }
    ensures is { result ≡ eh3_even_sum 32 seed half number }
    ensures small { unsigned_abs result ≤ 4096 }
{
    let first = number << (2 * half);
    let zeros = zero_pair_count((seed / 2) as u32, half);
    signed(1 << half, sign_by(eh3_ones(seed, first) + zeros))
}

// The closed rule: at an even level `even_sum`, and at an odd one the sum of the two blocks of the level below.
fn closed_sum(seed: u64, block: Block) -> i64
    requires seed { seed < 2 ^ 25 }
    requires level { block.level ≤ 24 }
    requires block { block.number * 2 ^ block.level + 2 ^ block.level ≤ 2 ^ 24 }
    ensures { result ≡ eh3_block_sum 32 seed block.level block.number }
{
    let half = block.level / 2;
    let number = block.number;
    if block.level % 2 == 0 {
        return even_sum(seed, half, number);
    }
    even_sum(seed, half, 2 * number) + even_sum(seed, half, 2 * number + 1)
}

// Like BCH3's impl but for sign and rule: a trait over both would have more members than the lines that it saves.
impl SignFamily for Eh3 {
    ghost meaning = { λ f. eh3 f.width };

    ghost lawful = { λ f. eh3-Lawful f.width (omega arith) (omega arith) };

    fn width(&self) -> u32 {
        self.width
    }

    fn seed_count(&self) -> u64 {
        1 << (self.width + 1)
    }

    fn sign(&self, seed: u64, slot: u32) -> Result<Sign, Fault> {
        check_seed(self.seed_count(), seed)?;
        check_slot(self.width, slot)?;
        Ok(sign_by(eh3_ones(seed, slot)))
    }

    fn block_sum(&self, seed: u64, block: Block) -> Result<i64, Fault>
        ensures is { result ≡ block_answer (eh3 self.now.width) seed block.level block.number }
        ensures closed { result ≡ answer (block_refusal (eh3 self.now.width) seed block.level block.number) (eh3_block_sum self.now.width seed block.level block.number) }
    {
        check_seed(self.seed_count(), seed)?;
        check_block(self.width, block)?;
        Ok(closed_sum(seed, block))
    }
}
