ghost use Rattle.std.specs.Prelude.{◌≡◌};
ghost use Rattle.signs.specs.Family.{Meaning, Lawful, value, sign_answer, block_answer};

use crate::faults::Fault;

/// Plus or minus 1.
#[derive(Clone, Copy, PartialEq, Eq, Debug)]
pub enum Sign {
    Plus,
    Minus,
}

impl From<Sign> for i64 {
    ghost from_gives = { λ sign n. n ≡ value sign };

    fn from(sign: Sign) -> i64 {
        match sign {
            Sign::Plus => 1,
            Sign::Minus => -1,
        }
    }
}

/// An aligned block of 2^level slots: those from number × 2^level up to but not including (number + 1) × 2^level.
#[derive(Clone, Copy, PartialEq, Eq, Debug)]
pub struct Block {
    pub level: u32,
    pub number: u32,
}

/// A family of signs: slots are numbered from 0 up to but not including 2^width, seeds from 0 up to but not including the seed count, and
/// each seed gives each slot a sign.
///
/// `meaning` says which, `lawful` that width and seed count are in bounds and that two different slots have equal signs under exactly half of
/// the seeds. Whoever supplies a family shows that law, and of `block_sum` that it is the sum of the signs of the block's slots.
pub trait SignFamily {
    ghost meaning: { Self → Meaning };

    /// The number of bits of a slot, 1 to 24.
    fn width(&self) -> u32
        ensures { result ≡ (meaning self.now).width };

    /// The number of seeds, 2 to 2^60.
    fn seed_count(&self) -> u64
        ensures { result ≡ (meaning self.now).seeds };

    /// The sign of a slot under a seed.
    fn sign(&self, seed: u64, slot: u32) -> Result<Sign, Fault>
        ensures { result ≡ sign_answer (meaning self.now) seed slot };

    /// The sum of the signs of the slots of a block.
    fn block_sum(&self, seed: u64, block: Block) -> Result<i64, Fault>
        ensures { result ≡ block_answer (meaning self.now) seed block.level block.number };

    ghost lawful: { (f : Self) → Lawful (meaning f) };
}
