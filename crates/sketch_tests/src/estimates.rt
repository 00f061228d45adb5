//! Merging and overlap.

use crate::calls::{booking, shape};
use overlap::overlap;
use parity::Bch3;
use signs::{Fault, Layer, Reason};
use sketch::{Figures, OpenSketch, Shape};
use std::test::Fail;

// Slots 0 to 5 at weight 1, on a sketch of three cells.
fn three_cells(shape: Shape, seeds: &[u64], cells: &mut [i64]) -> Result<Figures, Fault> {
    let family = Bch3::new(3)?;
    let mut sketch = OpenSketch::open(&family, shape, seeds, cells)?;
    sketch.post(&family, seeds, cells, booking(0, 6, 1))?;
    Ok(sketch.figures())
}

#[test]
fn middles(rt: HostRuntime) -> Result<(), Fail> {
    let mut cells = [0; 3];
    let mut totals = [5; 3];
    let figures = three_cells(shape(3, 1), &[0, 2, 4], &mut cells)?;
    let estimate = overlap(&figures, &cells, &figures, &cells, &mut totals)?;
    assert_eq!(rt; estimate.middle, 4);
    assert_eq!(rt; estimate.columns, 1);
    assert_eq!(rt; totals[0], 36);
    assert_eq!(rt; totals[1], 0);
    assert_eq!(rt; totals[2], 4);
    let figures = three_cells(shape(3, 1), &[2, 0, 0], &mut cells)?;
    assert_eq!(rt;
        overlap(&figures, &cells, &figures, &cells, &mut totals)?.middle,
        36
    );
    let figures = three_cells(shape(1, 3), &[0, 2, 4], &mut cells)?;
    let mut total = [5];
    let estimate = overlap(&figures, &cells, &figures, &cells, &mut total)?;
    assert_eq!(rt; estimate.middle, 40);
    assert_eq!(rt; estimate.columns, 3);
    Ok(())
}

// Of two sketches, one with slots 0 to 5 at weight 1, the other with slots 0 to 3 at weight -2: at seed 0 all signs are plus, at seed 2 those of
// odd slots are minus, at seed 4 those of slots 2, 3, 6 and 7.
#[test]
fn two_sketches(rt: HostRuntime) -> Result<(), Fail> {
    let mut cells = [0; 3];
    let mut others = [0; 3];
    let mut totals = [5; 3];
    let first = three_cells(shape(3, 1), &[0, 2, 4], &mut cells)?;
    let family = Bch3::new(3)?;
    let mut sketch = OpenSketch::open(&family, shape(3, 1), &[0, 2, 4], &mut others)?;
    sketch.post(&family, &[0, 2, 4], &mut others, booking(0, 4, -2))?;
    let second = sketch.figures();
    let estimate = overlap(&first, &cells, &second, &others, &mut totals)?;
    assert_eq!(rt; totals[0], -48);
    assert_eq!(rt; totals[1], 0);
    assert_eq!(rt; totals[2], 0);
    assert_eq!(rt; estimate.middle, 0);
    Ok(())
}

#[test]
fn refused_overlaps(rt: HostRuntime) -> Result<(), Fail> {
    let mut cells = [0; 3];
    let tall = three_cells(shape(3, 1), &[0, 2, 4], &mut cells)?;
    let wide = three_cells(shape(1, 3), &[0, 2, 4], &mut cells)?;
    let mut totals = [5; 3];
    assert_eq!(rt;
        overlap(&tall, &cells, &wide, &cells, &mut totals).err(),
        Some(Layer::Sketch.fault(Reason::Shape, 0))
    );
    assert_eq!(rt;
        overlap(&tall, &cells, &tall, &[], &mut totals).err(),
        Some(Layer::Sketch.fault(Reason::Table, 2))
    );
    assert_eq!(rt;
        overlap(&wide, &cells, &wide, &cells, &mut totals).err(),
        Some(Layer::Sketch.fault(Reason::Table, 3))
    );
    assert_eq!(rt;
        overlap(&tall, &cells, &tall, &[6, -6, i64::MIN], &mut totals).err(),
        Some(Layer::Sketch.fault(Reason::ForeignCells, 482))
    );
    assert_eq!(rt; totals[0], 5);
    Ok(())
}

#[test]
fn merging(rt: HostRuntime) -> Result<(), Fail> {
    let family = Bch3::new(3)?;
    let mut cells = [0; 3];
    let mut sketch = OpenSketch::open(&family, shape(3, 1), &[0, 2, 4], &mut cells)?;
    let mut others = [0; 3];
    let other = three_cells(shape(3, 1), &[0, 2, 4], &mut others)?;
    let turned = three_cells(shape(1, 3), &[0, 2, 4], &mut others)?;
    assert_eq!(rt;
        sketch.merge(&mut cells, &turned, &others).err(),
        Some(Layer::Sketch.fault(Reason::Shape, 0))
    );
    assert_eq!(rt;
        sketch.merge(&mut cells, &other, &[6, 7, 0]).err(),
        Some(Layer::Sketch.fault(Reason::ForeignCells, 481))
    );
    sketch.merge(&mut cells, &other, &others)?;
    sketch.merge(&mut cells, &other, &others)?;
    assert_eq!(rt; cells[0], 12);
    assert_eq!(rt; cells[2], 4);
    assert_eq!(rt; sketch.figures().gross(), 12);
    assert_eq!(rt; sketch.figures().net(), 12);
    Ok(())
}
