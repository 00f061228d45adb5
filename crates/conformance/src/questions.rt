use crate::words::LineError;
use signs::{Block, Fault, SignFamily, interval_sum};
use std::fmt;
use std::ops::Range;

/// What a line asks of the current family.
#[derive(Drop)]
pub(crate) enum Question {
    Size,
    Sign { seed: u64, slot: u32 },
    Block { seed: u64, block: Block },
    Sum { seed: u64, slots: Range<u32> },
}

impl Question {
    /// The question that words ask: `sign SEED SLOT`, `block SEED LEVEL NUMBER` or `sum SEED FIRST END`.
    pub(crate) fn from_words(words: &[&str]) -> Result<Question, LineError> {
        match words {
            ["sign", seed, slot] => Ok(Question::Sign {
                seed: seed.parse()?,
                slot: slot.parse()?,
            }),
            ["block", seed, level, number] => Ok(Question::Block {
                seed: seed.parse()?,
                block: Block {
                    level: level.parse()?,
                    number: number.parse()?,
                },
            }),
            ["sum", seed, first, end] => Ok(Question::Sum {
                seed: seed.parse()?,
                slots: first.parse()?..end.parse()?,
            }),
            _ => Err(LineError::Unknown),
        }
    }

    /// What a family answers.
    pub(crate) fn ask<F: SignFamily>(self, family: &F) -> Result<Answer, Fault> {
        match self {
            Question::Size => Ok(Answer::Size {
                width: family.width(),
                seeds: family.seed_count(),
            }),
            Question::Sign { seed, slot } => Ok(Answer::Value(i64::from(family.sign(seed, slot)?))),
            Question::Block { seed, block } => Ok(Answer::Value(family.block_sum(seed, block)?)),
            Question::Sum { seed, slots } => Ok(Answer::Value(interval_sum(family, seed, slots)?)),
        }
    }
}

/// What a family answers where it does not refuse.
#[derive(Clone, Copy)]
pub(crate) enum Answer {
    Size { width: u32, seeds: u64 },
    Value(i64),
}

impl fmt::Display for Answer {
    fn fmt<W: fmt::Write>(&self, f: &mut fmt::Formatter<W>) -> fmt::Result {
        match self {
            Answer::Size { width, seeds } => write!(f, "ok {width} {seeds}"),
            Answer::Value(sum) => write!(f, "ok {sum}"),
        }
    }
}
