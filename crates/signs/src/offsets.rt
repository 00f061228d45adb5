ghost use Rattle.std.specs.Prelude.{◌≡◌, ◌+◌, ◌%◌, ◌^◌, ◌<◌, ◌≤◌, Ok};
ghost use Rattle.signs.specs.Sums.{sum};
ghost use Rattle.signs.specs.Family.{value};
ghost use Rattle.signs.specs.Offset.{shifted};
ghost use Rattle.signs.specs.Shifts.{shifted-Lawful};

use crate::checks::{check_block, check_seed, check_slot};
use crate::family::{Block, Sign, SignFamily};
use crate::faults::Fault;
use crate::intervals::interval_sum;

/// The family below with its slots moved: the sign of slot i is the one below at (i + offset) mod 2^width.
#[derive(Drop)]
pub struct Offset<F> {
    below: F,
    offset: u32,
}

impl<F> Offset<F> {
    /// The layer over a family. The offset may be larger than the number of slots.
    pub fn new(below: F, offset: u32) -> Offset<F>
        ensures below { result.below ≡ below }
        ensures offset { result.offset ≡ offset }
    {
        Offset { below, offset }
    }
}

// Where a slot goes: `offset` on, round the end at 2^width. The width is a family's, of any type, so that its bound is asked here.
fn moved(slot: u32, offset: u32, width: u32) -> u32
    requires { width ≤ 24 }
    ensures is { result ≡ (slot + offset) % 2 ^ width }
    ensures there { result < 2 ^ width }
{
    ((u64::from(slot) + u64::from(offset)) % (1u64 << width)) as u32
}

// The sum of the signs of `size` slots of a family from `start` on, round the end: one interval, or two where they go round it.
fn sum_round<F: SignFamily>(family: &F, seed: u64, start: u32, size: u32) -> Result<i64, Fault>
    requires seed { seed < (F.meaning family.now).seeds }
    requires start { start < 2 ^ (F.meaning family.now).width }
    requires size { (1 ≤ size) × (size ≤ 2 ^ (F.meaning family.now).width) }
    ensures { result ≡ Ok (sum size (λ k. value ((F.meaning family.now).sign seed ((start + k) % 2 ^ (F.meaning family.now).width)))) }
{
    let slots = 1 << family.width();
    let end = start + size;
    if end <= slots {
        return interval_sum(family, seed, start..end);
    }
    let front = interval_sum(family, seed, start..slots)?;
    let back = interval_sum(family, seed, 0..end - slots)?;
    Ok(front + back)
}

impl<F: SignFamily> SignFamily for Offset<F> {
    ghost meaning = { λ f. shifted (F.SignFamily.meaning f.below) f.offset };

    ghost lawful = { λ f. shifted-Lawful (F.SignFamily.meaning f.below) f.offset (F.SignFamily.lawful f.below) };

    fn width(&self) -> u32 {
        self.below.width()
    }

    fn seed_count(&self) -> u64 {
        self.below.seed_count()
    }

    fn sign(&self, seed: u64, slot: u32) -> Result<Sign, Fault> {
        check_seed(self.below.seed_count(), seed)?;
        let width = self.below.width();
        check_slot(width, slot)?;
        self.below.sign(seed, moved(slot, self.offset, width))
    }

    fn block_sum(&self, seed: u64, block: Block) -> Result<i64, Fault> {
        check_seed(self.below.seed_count(), seed)?;
        let width = self.below.width();
        check_block(width, block)?;
        let start = moved(block.number << block.level, self.offset, width);
        sum_round(&self.below, seed, start, 1 << block.level)
    }
}
