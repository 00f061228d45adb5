ghost use Rattle.std.specs.Prelude.{◌<◌, IfSome};

use signs::Fault;
use std::alloc::{AllocError, Global};
use std::error::Error;
use std::fmt;
use std::num::ParseIntError;

/// Why a line is not answered `ok`.
#[derive(Debug, Drop)]
pub(crate) enum LineError {
    /// It names no family and asks nothing, or there is no family yet.
    Unknown,
    Refused(Fault),
    OutOfMemory(AllocError),
}

impl From<ParseIntError> for LineError {
    fn from(_error: ParseIntError) -> LineError {
        LineError::Unknown
    }
}

impl From<Fault> for LineError {
    fn from(fault: Fault) -> LineError {
        LineError::Refused(fault)
    }
}

impl From<AllocError> for LineError {
    fn from(error: AllocError) -> LineError {
        LineError::OutOfMemory(error)
    }
}

impl fmt::Display for LineError {
    fn fmt<W: fmt::Write>(&self, f: &mut fmt::Formatter<W>) -> fmt::Result {
        match self {
            LineError::Unknown => write!(f, "what"),
            LineError::Refused(fault) => write!(f, "{fault}"),
            LineError::OutOfMemory(error) => write!(f, "{error}"),
        }
    }
}

impl Error for LineError {}

// By hand, since `char::to_digit` takes capital letters too.
fn digit(byte: u8) -> Option<u8>
    ensures { IfSome result (λ d. d < 16) }
{
    match byte {
        b'0'..=b'9' => Some(byte - b'0'),
        b'a'..=b'f' => Some(byte - b'a' + 10),
        _ => None,
    }
}

// The byte that two digits stand for.
fn byte_of(digits: &[u8]) -> Option<u8> {
    match *digits {
        [high, low] => Some(digit(high)? * 16 + digit(low)?),
        _ => None,
    }
}

/// The bytes of a word of hexadecimal digits, two to a byte; `-` has none.
pub(crate) fn bytes_of(alloc: Global, word: &str) -> Result<Vec<u8>, LineError> {
    if word == "-" {
        return Ok(Vec::new(alloc));
    }
    // Before any byte is kept: a word that is refused for its length alone takes no memory.
    if word.len() % 2 != 0 {
        return Err(LineError::Unknown);
    }
    word.as_bytes()
        .chunks(2)
        .map(|digits| byte_of(digits).ok_or(LineError::Unknown))
        .try_collect(alloc)
}
