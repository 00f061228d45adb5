//! Makes five calls on a sketch, and prints what stands: the cells, the figures and the sketch's overlap with itself. Lines end with CR LF.

#![tactic(auto)]

use overlap::{Estimate, overlap};
use parity::Eh3;
use signs::Fault;
use sketch::{Booking, OpenSketch, Refused, Shape};
use std::io;

const WIDTH: u32 = 4;

const SHAPE: Shape = Shape {
    groups: 1,
    columns: 2,
};

const SEEDS: [u64; 2] = [3, 10];

// Holds an option and withdraws it again.
fn withdrawn(
    sketch: OpenSketch,
    family: &Eh3,
    cells: &mut [i64],
    option: Booking,
) -> Result<OpenSketch, Fault> {
    sketch
        .hold(family, &SEEDS, cells, option)?
        .withdraw(family, &SEEDS, cells)
        .map_err(|Refused { sketch, fault }| {
            let _ = sketch.confirm();
            fault
        })
}

// A post, an option that is withdrawn, and one that is confirmed.
fn sample(family: &Eh3, cells: &mut [i64]) -> Result<OpenSketch, Fault> {
    let posted = Booking {
        from: 2,
        to: 11,
        weight: 3,
    };
    let withdrawn_option = Booking {
        from: 5,
        to: 6,
        weight: 4,
    };
    let confirmed_option = Booking {
        from: 12,
        to: 14,
        weight: -1,
    };
    let mut sketch = OpenSketch::open(family, SHAPE, &SEEDS, cells)?;
    sketch.post(family, &SEEDS, cells, posted)?;
    let sketch = withdrawn(sketch, family, cells, withdrawn_option)?;
    let held = sketch.hold(family, &SEEDS, cells, confirmed_option)?;
    Ok(held.confirm())
}

// With commas, as the other lines have them; a fault's own text has spaces.
fn print_refusal(rt: &impl Print, fault: Fault) -> io::Result<()> {
    let number = fault.number();
    let letter = fault.letter();
    let place = fault.place;
    print!(rt; "refused,{number},{letter},{place}\r\n")
}

fn print_sketch(rt: &impl Print, sketch: &OpenSketch, cells: &[i64]) -> io::Result<()> {
    // The index is printed.
    for (index, cell) in cells.iter().enumerate() {
        print!(rt; "cell,{index},{cell}\r\n")?;
    }
    let figures = sketch.figures();
    let gross = figures.gross();
    let net = figures.net();
    print!(rt; "figures,{gross},{net}\r\n")?;
    let mut totals = [0; SHAPE.groups];
    match overlap(&figures, cells, &figures, cells, &mut totals) {
        Ok(Estimate { columns, middle }) => print!(rt; "self,{middle},{columns}\r\n"),
        Err(fault) => print_refusal(rt, fault),
    }
}

fn main(rt: HostRuntime) -> io::Result<()> {
    let mut cells = [0; SEEDS.len()];
    match Eh3::new(WIDTH).and_then(|family| sample(&family, &mut cells)) {
        Ok(sketch) => print_sketch(&rt, &sketch, &cells),
        Err(fault) => print_refusal(&rt, fault),
    }
}
