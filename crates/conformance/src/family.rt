ghost use Rattle.std.specs.Prelude.{◌≡◌};

use crate::words::{LineError, bytes_of};
use listed::Listed;
use parity::{Bch3, Eh3};
use signs::{Block, Fault, Offset, Sign, SignFamily};
use std::alloc::Global;

// The offset layers that words ask for, the first one innermost.
#[derive(Clone, Copy)]
enum Layers {
    Plain,
    Once(u32),
    Twice(u32, u32),
}

impl Layers {
    ghost use Rattle.conformance.specs.Layers.{layered, laid_over};

    // `offset NUMBER` for each layer, of at most two.
    fn from_words(words: &[&str]) -> Result<Layers, LineError> {
        match words {
            [] => Ok(Layers::Plain),
            ["offset", first] => Ok(Layers::Once(first.parse()?)),
            ["offset", first, "offset", second] => {
                Ok(Layers::Twice(first.parse()?, second.parse()?))
            }
            _ => Err(LineError::Unknown),
        }
    }

    // These layers over a family.
    fn over<F: SignFamily>(self, family: F) -> Layered<F>
        ensures { layered F.meaning result ≡ laid_over self (F.meaning family) }
    {
        match self {
            Layers::Plain => Layered::Plain(family),
            Layers::Once(first) => Layered::Once(Offset::new(family, first)),
            Layers::Twice(first, second) => {
                Layered::Twice(Offset::new(Offset::new(family, first), second))
            }
        }
    }
}

/// A family under no, one or two offset layers.
#[derive(Drop)]
pub(crate) enum Layered<F> {
    Plain(F),
    Once(Offset<F>),
    Twice(Offset<Offset<F>>),
}

impl<F: SignFamily> SignFamily for Layered<F> {
    ghost use Rattle.conformance.specs.Layers.{layered, layered-Lawful};

    ghost meaning = { layered F.SignFamily.meaning };

    ghost lawful = { layered-Lawful F.SignFamily.meaning F.SignFamily.lawful };

    fn width(&self) -> u32 {
        match self {
            Layered::Plain(family) => family.width(),
            Layered::Once(family) => family.width(),
            Layered::Twice(family) => family.width(),
        }
    }

    fn seed_count(&self) -> u64 {
        match self {
            Layered::Plain(family) => family.seed_count(),
            Layered::Once(family) => family.seed_count(),
            Layered::Twice(family) => family.seed_count(),
        }
    }

    fn sign(&self, seed: u64, slot: u32) -> Result<Sign, Fault> {
        match self {
            Layered::Plain(family) => family.sign(seed, slot),
            Layered::Once(family) => family.sign(seed, slot),
            Layered::Twice(family) => family.sign(seed, slot),
        }
    }

    fn block_sum(&self, seed: u64, block: Block) -> Result<i64, Fault> {
        match self {
            Layered::Plain(family) => family.block_sum(seed, block),
            Layered::Once(family) => family.block_sum(seed, block),
            Layered::Twice(family) => family.block_sum(seed, block),
        }
    }
}

/// A family of any kind under its layers. The kind is told apart above the layers, and not at each block that a layer asks for. An enum, since a
/// boxed family that is made here could not be handed out.
#[derive(Drop)]
pub(crate) enum Family {
    Bch3(Layered<Bch3>),
    Eh3(Layered<Eh3>),
    Listed(Layered<Listed>),
}

impl Family {
    /// The family that words name: `bch3 WIDTH`, `eh3 WIDTH` or `listed WIDTH ROWS BYTES`, and then its layers. Words that name none are unknown,
    /// whether or not the kind is refused.
    pub(crate) fn from_words(alloc: Global, words: &[&str]) -> Result<Family, LineError> {
        let cut = words.iter().position(|word| *word == "offset");
        let (kind, layers) = words.split_at(cut.unwrap_or(words.len()));
        let layers = Layers::from_words(layers)?;
        match kind {
            ["bch3", width] => Ok(Family::Bch3(layers.over(Bch3::new(width.parse()?)?))),
            ["eh3", width] => Ok(Family::Eh3(layers.over(Eh3::new(width.parse()?)?))),
            ["listed", width, rows, bytes] => {
                let (width, rows) = (width.parse()?, rows.parse()?);
                let table = Listed::new(width, rows, bytes_of(alloc, bytes)?)?;
                Ok(Family::Listed(layers.over(table)))
            }
            _ => Err(LineError::Unknown),
        }
    }
}

impl SignFamily for Family {
    ghost use Rattle.conformance.specs.declared.family.Family.TheVariants.{Bch3, Eh3, Listed};
    ghost use Rattle.conformance.specs.Layers.{layered, layered-Lawful};
    ghost use Rattle.parity.specs.contracts.bch3.Bch3SignFamily.TheImpl.Laws as bch3;
    ghost use Rattle.parity.specs.contracts.eh3.Eh3SignFamily.TheImpl.Laws as eh3;
    ghost use Rattle.listed.specs.contracts.family.ListedSignFamily.TheImpl.Laws as listed;

    ghost meaning = { elim [ Bch3 l ↦ layered ⟦<Bch3 as SignFamily>⟧.meaning l | Eh3 l ↦ layered ⟦<Eh3 as SignFamily>⟧.meaning l | Listed l ↦ layered ⟦<Listed as SignFamily>⟧.meaning l ] };

    ghost lawful = { elim [ Bch3 l ↦ layered-Lawful _ bch3.lawful-law l | Eh3 l ↦ layered-Lawful _ eh3.lawful-law l | Listed l ↦ layered-Lawful _ listed.lawful-law l ] };

    fn width(&self) -> u32 {
        match self {
            Family::Bch3(family) => family.width(),
            Family::Eh3(family) => family.width(),
            Family::Listed(family) => family.width(),
        }
    }

    fn seed_count(&self) -> u64 {
        match self {
            Family::Bch3(family) => family.seed_count(),
            Family::Eh3(family) => family.seed_count(),
            Family::Listed(family) => family.seed_count(),
        }
    }

    fn sign(&self, seed: u64, slot: u32) -> Result<Sign, Fault> {
        match self {
            Family::Bch3(family) => family.sign(seed, slot),
            Family::Eh3(family) => family.sign(seed, slot),
            Family::Listed(family) => family.sign(seed, slot),
        }
    }

    fn block_sum(&self, seed: u64, block: Block) -> Result<i64, Fault> {
        match self {
            Family::Bch3(family) => family.block_sum(seed, block),
            Family::Eh3(family) => family.block_sum(seed, block),
            Family::Listed(family) => family.block_sum(seed, block),
        }
    }
}
