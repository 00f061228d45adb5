//! Layers over families, slot by slot against block by block.

use crate::Turned;
use listed::Listed;
use parity::{Bch3, Eh3};
use signs::{Block, Fault, Offset, Sign, SignFamily, interval_sum};
use std::ops::Range;
use std::test::Fail;

// The sum of the signs of the slots, one by one.
fn slot_sum<F: SignFamily>(family: &F, seed: u64, slots: Range<u32>) -> Result<i64, Fault> {
    let mut sum = 0i64;
    for slot in slots {
        sum += i64::from(family.sign(seed, slot)?);
    }
    Ok(sum)
}

// The first seed and interval, of all, whose sum is another than that of its slots. A block is an interval too.
fn wrong_sum<F: SignFamily>(family: &F) -> Result<Option<(u64, Range<u32>)>, Fault> {
    // Seeds and slots are numbers, and no places in a list.
    let slots = 1 << family.width();
    for seed in 0..family.seed_count() {
        for first in 0..slots {
            for end in first + 1..=slots {
                if interval_sum(family, seed, first..end)? != slot_sum(family, seed, first..end)? {
                    return Ok(Some((seed, first..end)));
                }
            }
        }
    }
    Ok(None)
}

#[test]
fn offset_over_offset(rt: HostRuntime) -> Result<(), Fail> {
    let twice = Offset::new(Offset::new(Eh3::new(4)?, 13), u32::MAX);
    let once = Offset::new(Eh3::new(4)?, 12);
    for slot in 0..16 {
        assert_eq!(rt; twice.sign(29, slot)?, once.sign(29, slot)?);
    }
    let block = Block {
        level: 2,
        number: 1,
    };
    assert_eq!(rt; twice.block_sum(3, block)?, once.block_sum(3, block)?);
    assert_eq!(rt; wrong_sum(&twice)?, None);
    Ok(())
}

// Any two columns are alike in two of the four rows.
#[test]
fn offset_over_listed(rt: HostRuntime) -> Result<(), Fail> {
    let table = [0u8, 0, 0, 0, 0, 1, 0, 1, 0, 0, 1, 1, 0, 1, 1, 0].to_vec(rt.alloc())?;
    let family = Offset::new(Listed::new(2, 4, table)?, 3);
    assert_eq!(rt; family.width(), 2);
    assert_eq!(rt; family.seed_count(), 4);
    for (number, sum) in [(0, 2), (1, -2)] {
        assert_eq!(rt; family.block_sum(3, Block { level: 1, number })?, sum);
    }
    assert_eq!(rt; wrong_sum(&family)?, None);
    Ok(())
}

#[test]
fn turned_over_offset(rt: HostRuntime) -> Result<(), Fail> {
    let family = Turned::new(Offset::new(Bch3::new(3)?, 5));
    let whole = Block {
        level: 3,
        number: 0,
    };
    assert_eq!(rt; family.block_sum(1, whole)?, 8);
    assert_eq!(rt; wrong_sum(&family)?, None);
    Ok(())
}

// The worked examples of the published text; its EH3 sum is printed as 12, which is the one of s0 = 1.
#[test]
fn published_examples(rt: HostRuntime) -> Result<(), Fail> {
    assert_eq!(rt; Bch3::new(16)?.sign(2 * 7469 + 1, 2500)?, Sign::Plus);
    assert_eq!(rt; interval_sum(&Bch3::new(8)?, 2 * 184, 100..203)?, -1);
    let eh3 = Eh3::new(8)?;
    assert_eq!(rt; interval_sum(&eh3, 2 * 184, 124..198)?, -12);
    assert_eq!(rt; interval_sum(&eh3, 2 * 184 + 1, 124..198)?, 12);
    Ok(())
}

#[test]
fn widest(rt: HostRuntime) -> Result<(), Fail> {
    let bch3 = Bch3::new(24)?;
    assert_eq!(rt; interval_sum(&bch3, 1, 0..1 << 24)?, -16777216);
    assert_eq!(rt; interval_sum(&bch3, 1, 1..(1 << 24) - 1)?, -16777214);
    let eh3 = Eh3::new(24)?;
    assert_eq!(rt; interval_sum(&eh3, 0, 0..1 << 24)?, 4096);
    assert_eq!(rt; interval_sum(&eh3, 2, 0..1 << 24)?, -4096);
    Ok(())
}
