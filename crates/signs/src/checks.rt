ghost use Rattle.std.specs.Prelude.{◌≡◌, ◌^◌, nat_lt};
ghost use Rattle.signs.specs.Faults.{answer};
ghost use Rattle.signs.specs.Family.{width_check, seed_check, slot_check, block_check, interval_check};

use crate::family::Block;
use crate::faults::{Fault, Layer};
use crate::reason::Reason;
use std::ops::Range;

// Whether x is below 2^k. Every u32 is below 2^32.
fn is_below_power(x: u32, k: u32) -> bool
    ensures { result ≡ nat_lt x (2 ^ k) }
{
    k >= 32 || x < 1 << k
}

/// Refuses a width that a kind of family does not have, outside of `least` to `most` (1).
pub fn check_width(least: u32, most: u32, width: u32) -> Result<(), Fault>
    ensures { result ≡ answer (width_check least most width) tt }
{
    if !(least..=most).contains(&width) {
        return Err(Layer::Family.fault(Reason::Width, 0));
    }
    Ok(())
}

/// Refuses a seed that is not below the number of seeds (5).
pub fn check_seed(seeds: u64, seed: u64) -> Result<(), Fault>
    ensures { result ≡ answer (seed_check seeds seed) tt }
{
    if seed >= seeds {
        return Err(Layer::Family.fault(Reason::Seed, 0));
    }
    Ok(())
}

/// Refuses a slot that is not below 2^width (6).
pub fn check_slot(width: u32, slot: u32) -> Result<(), Fault>
    ensures { result ≡ answer (slot_check width slot) tt }
{
    if !is_below_power(slot, width) {
        return Err(Layer::Family.fault(Reason::Slot, 0));
    }
    Ok(())
}

/// Refuses a level above the width, and a block number that is not below 2^(width − level) (7).
pub fn check_block(width: u32, block: Block) -> Result<(), Fault>
    ensures { result ≡ answer (block_check width block.level block.number) tt }
{
    if block.level > width || !is_below_power(block.number, width - block.level) {
        return Err(Layer::Family.fault(Reason::Block, 0));
    }
    Ok(())
}

/// Refuses an interval whose first slot is not below its end, or whose end is above 2^width (8).
pub fn check_interval(width: u32, slots: &Range<u32>) -> Result<(), Fault>
    ensures { result ≡ answer (interval_check width slots.now.start slots.now.end) tt }
{
    if slots.is_empty() || !is_below_power(slots.end - 1, width) {
        return Err(Layer::Family.fault(Reason::Interval, 0));
    }
    Ok(())
}
