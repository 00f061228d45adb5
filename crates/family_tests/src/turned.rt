ghost use Rattle.std.specs.Prelude.{◌≡◌};
ghost use Rattle.family_tests.specs.Turned.{turn, turned};
ghost use Rattle.family_tests.specs.Turns.{turned-Lawful};

use signs::{Block, Fault, Sign, SignFamily};

/// The family below with every sign turned.
#[derive(Drop)]
pub struct Turned<F> {
    below: F,
}

impl<F> Turned<F> {
    pub fn new(below: F) -> Turned<F>
        ensures { result.below ≡ below }
    {
        Turned { below }
    }
}

// No `Neg`, which only the crate of `Sign` could implement.
fn opposite(sign: Sign) -> Sign
    ensures { result ≡ turn sign }
{
    match sign {
        Sign::Plus => Sign::Minus,
        Sign::Minus => Sign::Plus,
    }
}

impl<F: SignFamily> SignFamily for Turned<F> {
    ghost meaning = { λ f. turned (F.SignFamily.meaning f.below) };

    ghost lawful = { λ f. turned-Lawful (F.SignFamily.meaning f.below) (F.SignFamily.lawful f.below) };

    fn width(&self) -> u32 {
        self.below.width()
    }

    fn seed_count(&self) -> u64 {
        self.below.seed_count()
    }

    fn sign(&self, seed: u64, slot: u32) -> Result<Sign, Fault> {
        self.below.sign(seed, slot).map(opposite)
    }

    fn block_sum(&self, seed: u64, block: Block) -> Result<i64, Fault> {
        let sum = self.below.block_sum(seed, block)?;
        Ok(-sum)
    }
}
