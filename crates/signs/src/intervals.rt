ghost use Rattle.std.specs.Prelude.{◌≡◌, ℕ, ◌+◌, ◌%◌, ◌^◌, ◌<◌, ◌≤◌, Ok};
ghost use Rattle.signs.specs.Family.{interval_sum, interval_answer};
ghost use Rattle.signs.specs.Cover.{cover_answer};

use crate::checks::{check_interval, check_seed};
use crate::family::{Block, SignFamily};
use crate::faults::Fault;
use std::ops::Range;

// The level of the largest block that starts at slot `at` and does not pass `end`.
fn level_at(at: u32, end: u32) -> u32
    requires { at < end }
    ensures starts { at % 2 ^ result ≡ 0 }
    ensures fits { at + 2 ^ result ≤ end }
    ensures largest { (j : ℕ) → at % 2 ^ j ≡ 0 → at + 2 ^ j ≤ end → j ≤ result }
    ensures small { result < 32 }
{
    at.trailing_zeros().min(31 - (end - at).leading_zeros())
}

// The sum of the signs of the slots, block by block. The turns are counted, since it is promised that two blocks for each bit of the width are
// enough.
fn sum_of_blocks<F: SignFamily>(family: &F, seed: u64, slots: Range<u32>) -> Result<i64, Fault>
    requires seed { seed < (F.meaning family.now).seeds }
    requires within { (slots.start < slots.end) × (slots.end ≤ 2 ^ (F.meaning family.now).width) }
    ensures { result ≡ Ok (interval_sum (F.meaning family.now) seed slots.start slots.end) }
{
    let mut sum = 0i64;
    let mut at = slots.start;
    for _block in 0..2 * family.width() {
        if at == slots.end {
            break;
        }
        let level = level_at(at, slots.end);
        let number = at >> level;
        sum += family.block_sum(seed, Block { level, number })?;
        at += 1 << level;
    }
    Ok(sum)
}

/// The sum of the signs of the slots. It is put together from block sums: each block is the largest one
/// that starts at the next slot and fits, and there are at most two for each bit of the width.
pub fn interval_sum<F: SignFamily>(family: &F, seed: u64, slots: Range<u32>) -> Result<i64, Fault>
    ensures is { result ≡ interval_answer (F.meaning family.now) seed slots.start slots.end }
    ensures cover { result ≡ cover_answer (F.meaning family.now) seed slots.start slots.end }
{
    check_seed(family.seed_count(), seed)?;
    check_interval(family.width(), &slots)?;
    sum_of_blocks(family, seed, slots)
}
