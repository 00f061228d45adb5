//! Opening, bookings and options.

use crate::calls::{booking, shape, take};
use parity::{Bch3, Eh3};
use signs::{Fault, Layer, Reason};
use sketch::{Figures, OpenSketch, Refused};
use std::test::Fail;

fn posted_over_all(family: &Bch3, weight: i32) -> Result<u64, Fault> {
    let mut cells = [7];
    let mut sketch = OpenSketch::open(family, shape(1, 1), &[5], &mut cells)?;
    sketch.post(family, &[5], &mut cells, booking(0, 1 << 24, weight))?;
    Ok(sketch.figures().gross())
}

// Like `posted_over_all`, by the call that the limit counts twice.
fn held_over_all(family: &Bch3, weight: i32) -> Result<u64, Fault> {
    let mut cells = [7];
    let sketch = OpenSketch::open(family, shape(1, 1), &[5], &mut cells)?;
    let sketch = take(
        sketch,
        family,
        &[5],
        &mut cells,
        booking(0, 1 << 24, weight),
    )?;
    Ok(sketch.figures().gross())
}

// The gross limit is 2^26, and a hold needs room for its mass twice.
#[test]
fn gross_limit(rt: HostRuntime) -> Result<(), Fail> {
    let family = Bch3::new(24)?;
    assert_eq!(rt; posted_over_all(&family, 4)?, 1 << 26);
    assert_eq!(rt; posted_over_all(&family, -4)?, 1 << 26);
    assert_eq!(rt;
        posted_over_all(&family, 5).err(),
        Some(Layer::Sketch.fault(Reason::Full, 0))
    );
    assert_eq!(rt; held_over_all(&family, 2)?, 1 << 25);
    assert_eq!(rt;
        held_over_all(&family, -3).err(),
        Some(Layer::Sketch.fault(Reason::Full, 0))
    );
    Ok(())
}

#[test]
fn shapes(rt: HostRuntime) -> Result<(), Fail> {
    let family = Eh3::new(4)?;
    for (groups, columns) in [
        (0, 1),
        (2, 1),
        (16, 1),
        (17, 1),
        (1, 0),
        (1, 33),
        (usize::MAX, usize::MAX),
    ] {
        let mut cells = [7];
        assert_eq!(rt;
            OpenSketch::open(&family, shape(groups, columns), &[], &mut cells).err(),
            Some(Layer::Sketch.fault(Reason::Shape, 0))
        );
        assert_eq!(rt; cells[0], 7);
    }
    let seeds = [31; 480];
    let mut cells = [7; 480];
    let sketch = OpenSketch::open(&family, shape(15, 32), &seeds, &mut cells)?;
    assert_eq!(rt; sketch.figures().columns(), 32);
    assert_eq!(rt; cells[479], 0);
    Ok(())
}

// Each check comes before the next, and none of these posts changes a cell.
#[test]
fn order_of_checks(rt: HostRuntime) -> Result<(), Fail> {
    let family = Eh3::new(4)?;
    let mut cells = [0; 2];
    let mut sketch = OpenSketch::open(&family, shape(1, 2), &[3, 10], &mut cells)?;
    let bad = booking(9, 9, 0);
    let mut long = [1; 3];
    assert_eq!(rt;
        sketch.post(&family, &[3, 32, 0], &mut long, bad).err(),
        Some(Layer::Sketch.fault(Reason::Table, 0))
    );
    assert_eq!(rt;
        sketch.post(&family, &[3, 32], &mut long, bad).err(),
        Some(Layer::Sketch.fault(Reason::Table, 1))
    );
    let mut foreign = [0, -1];
    assert_eq!(rt;
        sketch.post(&family, &[3, 32], &mut foreign, bad).err(),
        Some(Layer::Family.fault(Reason::Seed, 1))
    );
    assert_eq!(rt;
        sketch.post(&family, &[3, 10], &mut foreign, bad).err(),
        Some(Layer::Sketch.fault(Reason::ForeignCells, 1))
    );
    assert_eq!(rt; foreign[1], -1);
    assert_eq!(rt;
        sketch.post(&family, &[3, 10], &mut cells, bad).err(),
        Some(Layer::Sketch.fault(Reason::Weight, 0))
    );
    assert_eq!(rt;
        sketch
            .post(&family, &[3, 10], &mut cells, booking(0, 17, 1001))
            .err(),
        Some(Layer::Sketch.fault(Reason::Weight, 0))
    );
    assert_eq!(rt;
        sketch
            .post(&family, &[3, 10], &mut cells, booking(0, 17, 1000))
            .err(),
        Some(Layer::Family.fault(Reason::Interval, 0))
    );
    assert_eq!(rt; cells[0], 0);
    assert_eq!(rt; sketch.figures().gross(), 0);
    Ok(())
}

// Holds an option, and withdraws it by a narrower family and then by its own: the figures then, and why the first was refused.
fn withdrawn_twice(
    wide: &Eh3,
    narrow: &Eh3,
    cells: &mut [i64],
) -> Result<(Figures, Option<Fault>), Fault> {
    let sketch = OpenSketch::open(wide, shape(1, 1), &[0], cells)?;
    let held = sketch.hold(wide, &[0], cells, booking(60, 64, -3))?;
    match held.withdraw(narrow, &[0], cells) {
        Ok(sketch) => Ok((sketch.figures(), None)),
        Err(Refused { sketch, fault }) => match sketch.withdraw(wide, &[0], cells) {
            Ok(sketch) => Ok((sketch.figures(), Some(fault))),
            Err(Refused { sketch, fault }) => {
                let _ = sketch.confirm();
                Err(fault)
            }
        },
    }
}

// A narrower family cannot withdraw the option, which then stands; the one that held it can.
#[test]
fn withdrawal(rt: HostRuntime) -> Result<(), Fail> {
    let mut cells = [0];
    let (figures, fault) = withdrawn_twice(&Eh3::new(6)?, &Eh3::new(4)?, &mut cells)?;
    assert_eq!(rt; fault, Some(Layer::Family.fault(Reason::Interval, 0)));
    assert_eq!(rt; figures.gross(), 24);
    assert_eq!(rt; figures.net(), 0);
    assert_eq!(rt; cells[0], 0);
    Ok(())
}
