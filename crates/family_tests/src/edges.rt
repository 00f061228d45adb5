//! Every refusal of a family, on both sides of its edge.

use listed::Listed;
use parity::{Bch3, Eh3};
use signs::{Block, Fault, Layer, Offset, Reason, Sign, SignFamily, interval_sum};
use std::test::Fail;

// A refusal by the family layer.
fn fault(reason: Reason, place: u64) -> Option<Fault> {
    Some(Layer::Family.fault(reason, place))
}

// The refusal for a reason at place 0, or none.
fn refusal(reason: Option<Reason>) -> Option<Fault> {
    fault(reason?, 0)
}

#[test]
fn widths(rt: HostRuntime) {
    for (width, reason) in [
        (0, Some(Reason::Width)),
        (1, None),
        (24, None),
        (25, Some(Reason::Width)),
        (u32::MAX, Some(Reason::Width)),
    ] {
        assert_eq!(rt;
            Bch3::new(width).err(),
            refusal(reason),
            "BCH3 of width {width}"
        );
    }
    for (width, reason) in [
        (0, Some(Reason::Width)),
        (1, Some(Reason::Width)),
        (2, None),
        (3, Some(Reason::Width)),
        (23, Some(Reason::Width)),
        (24, None),
        (25, Some(Reason::Width)),
        (26, Some(Reason::Width)),
    ] {
        assert_eq!(rt;
            Eh3::new(width).err(),
            refusal(reason),
            "EH3 of width {width}"
        );
    }
}

#[test]
fn signs(rt: HostRuntime) -> Result<(), Fail> {
    let family = Eh3::new(4)?;
    for (seed, slot, reason) in [
        (31, 15, None),
        (32, 15, Some(Reason::Seed)),
        (31, 16, Some(Reason::Slot)),
        (32, 16, Some(Reason::Seed)),
        (u64::MAX, u32::MAX, Some(Reason::Seed)),
        (0, u32::MAX, Some(Reason::Slot)),
    ] {
        assert_eq!(rt;
            family.sign(seed, slot).err(),
            refusal(reason),
            "seed {seed}, slot {slot}"
        );
    }
    Ok(())
}

#[test]
fn blocks(rt: HostRuntime) -> Result<(), Fail> {
    let family = Bch3::new(4)?;
    for (seed, level, number, reason) in [
        (31, 4, 0, None),
        (31, 4, 1, Some(Reason::Block)),
        (31, 5, 0, Some(Reason::Block)),
        (31, u32::MAX, 0, Some(Reason::Block)),
        (31, 0, 15, None),
        (31, 0, 16, Some(Reason::Block)),
        (31, 1, u32::MAX, Some(Reason::Block)),
        (32, 5, 16, Some(Reason::Seed)),
    ] {
        let block = Block { level, number };
        assert_eq!(rt;
            family.block_sum(seed, block).err(),
            refusal(reason),
            "seed {seed}, {block:?}"
        );
    }
    Ok(())
}

#[test]
fn intervals(rt: HostRuntime) -> Result<(), Fail> {
    let family = Offset::new(Eh3::new(4)?, 7);
    for (seed, slots, reason) in [
        (31, 0..16, None),
        (31, 0..17, Some(Reason::Interval)),
        (31, 15..16, None),
        (31, 16..16, Some(Reason::Interval)),
        (31, 0..0, Some(Reason::Interval)),
        (31, 3..2, Some(Reason::Interval)),
        (31, 0..u32::MAX, Some(Reason::Interval)),
        (32, 3..2, Some(Reason::Seed)),
    ] {
        assert_eq!(rt;
            interval_sum(&family, seed, slots.clone()?).err(),
            refusal(reason),
            "seed {seed}, slots {slots:?}"
        );
    }
    Ok(())
}

// What refuses a table, if it is no family's.
fn table_fault(
    rt: &HostRuntime,
    width: u32,
    rows: u32,
    table: &[u8],
) -> Result<Option<Fault>, Fail> {
    let table = table.to_vec(rt.alloc())?;
    Ok(Listed::new(width, rows, table).err())
}

const BALANCED: [u8; 8] = [0, 0, 0, 1, 1, 0, 1, 1];

// Width before rows, rows before bytes.
#[test]
fn tables(rt: HostRuntime) -> Result<(), Fail> {
    for (width, rows, reason) in [
        (1, 4, None),
        (0, 4, Some(Reason::Width)),
        (7, 4, Some(Reason::Width)),
        (7, 0, Some(Reason::Width)),
        (1, 3, Some(Reason::Rows)),
        (1, 5, Some(Reason::Rows)),
        (2, 1, Some(Reason::Rows)),
    ] {
        assert_eq!(rt;
            table_fault(&rt, width, rows, &BALANCED)?,
            refusal(reason),
            "width {width}, {rows} rows"
        );
    }
    let short = [3, 0, 0, 0, 0, 0, 0];
    assert_eq!(rt; table_fault(&rt, 2, 2, &short)?, fault(Reason::Rows, 0));
    assert_eq!(rt; table_fault(&rt, 1, 2, &[0, 1, 0, 0])?, None);
    let last = [0, 0, 0, 1, 1, 0, 1, 2];
    assert_eq!(rt; table_fault(&rt, 1, 4, &last)?, fault(Reason::SignByte, 7));
    let first = [255, 0, 0, 1, 1, 0, 1, 2];
    assert_eq!(rt; table_fault(&rt, 1, 4, &first)?, fault(Reason::SignByte, 0));
    Ok(())
}

#[test]
fn columns(rt: HostRuntime) -> Result<(), Fail> {
    // both columns alike in every row, and in one row of three
    let both = fault(Reason::Unbalanced, 1);
    assert_eq!(rt; table_fault(&rt, 1, 2, &[0, 0, 1, 1])?, both);
    assert_eq!(rt; table_fault(&rt, 1, 3, &[0, 0, 0, 1, 1, 0])?, both);
    // columns 1 and 2 alike in no row, all pairs before them balanced
    let apart = [0, 0, 1, 0, 0, 1, 0, 0, 0, 0, 1, 1, 0, 1, 0, 1];
    assert_eq!(rt;
        table_fault(&rt, 2, 4, &apart)?,
        fault(Reason::Unbalanced, 66)
    );
    // columns 2 and 3 alike in every row, all others balanced
    let alike = [0, 0, 0, 0, 0, 1, 0, 0, 0, 0, 1, 1, 0, 1, 1, 1];
    assert_eq!(rt;
        table_fault(&rt, 2, 4, &alike)?,
        fault(Reason::Unbalanced, 131)
    );
    Ok(())
}

// BCH3 of width 6, whose 128 seeds make the largest table.
fn bch3_table(rt: &HostRuntime, rows: u64) -> Result<Vec<u8>, Fail> {
    let family = Bch3::new(6)?;
    let mut table = Vec::new(rt.alloc());
    // Seeds and slots are numbers, and no places in a list.
    for seed in 0..rows {
        for slot in 0..64 {
            let sign = family.sign(seed % 128, slot)?;
            table.push(u8::from(sign == Sign::Minus))?;
        }
    }
    Ok(table)
}

#[test]
fn largest_table(rt: HostRuntime) -> Result<(), Fail> {
    let family = Listed::new(6, 128, bch3_table(&rt, 128)?)?;
    assert_eq!(rt; family.seed_count(), 128);
    assert_eq!(rt; interval_sum(&family, 1, 0..64)?, -64);
    assert_eq!(rt; family.sign(128, 63).err(), fault(Reason::Seed, 0));
    let too_large = Listed::new(6, 129, bch3_table(&rt, 129)?);
    assert_eq!(rt; too_large.err(), fault(Reason::Rows, 0));
    Ok(())
}
