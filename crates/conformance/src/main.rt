//! Reads questions to sign families, one to a line, and writes one answer line for each, so that the part can be held against an
//! implementation of other authorship.

#![tactic(auto)]

mod family;
mod questions;
mod words;

use crate::family::Family;
use crate::questions::{Answer, Question};
use crate::words::LineError;
use std::alloc::Global;
use std::io;
use std::io::{BufRead, BufReader};

// The answer to one line. A line that names a family makes it the current one, unless it is refused.
fn answer(alloc: Global, line: &str, current: &mut Option<Family>) -> Result<Answer, LineError> {
    let words: Vec<&str> = line.split(' ').collect(alloc)?;
    let question = match words.as_slice() {
        ["family", name @ ..] => {
            *current = Some(Family::from_words(alloc, name)?);
            Question::Size
        }
        question => Question::from_words(question)?,
    };
    let family = current.as_ref().ok_or(LineError::Unknown)?;
    Ok(question.ask(family)?)
}

fn main(rt: HostRuntime) -> io::Result<()> {
    let mut current = None;
    for line in BufReader::new(rt.alloc(), rt.stdin())?.lines(rt.alloc()) {
        let line = line?;
        if line.is_empty() || line.starts_with("#") {
            continue;
        }
        match answer(rt.alloc(), line.as_str(), &mut current) {
            Ok(answer) => println!(rt; "{answer}")?,
            Err(LineError::OutOfMemory(error)) => return Err(error.into()),
            Err(error) => println!(rt; "{error}")?,
        }
    }
    Ok(())
}
