//! Takes one booking and prints the sums of its slots' signs under two seeds of EH3.

#![tactic(auto)]

use parity::Eh3;
use signs::interval_sum;
use std::io;
use std::ops::Range;

// The slots of the booking.
const SLOTS: Range<u32> = 2..11;

const WEIGHT: i32 = 3;

fn print_sum(rt: &impl Print, family: &Eh3, seed: u64) -> io::Result<()> {
    match interval_sum(family, seed, SLOTS) {
        Ok(sum) => println!(rt; "seed {seed}: interval sum {sum}"),
        Err(fault) => println!(rt; "{fault}"),
    }
}

fn main(rt: HostRuntime) -> io::Result<()> {
    let family = match Eh3::new(4) {
        Ok(family) => family,
        Err(fault) => return println!(rt; "{fault}"),
    };
    println!(rt;
        "booking from slot {} up to {} by weight {WEIGHT}",
        SLOTS.start, SLOTS.end
    )?;
    for seed in [3, 10] {
        print_sum(&rt, &family, seed)?;
    }
    Ok(())
}
