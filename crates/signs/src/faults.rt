ghost use Rattle.std.specs.Prelude.{◌≡◌, Some};
ghost use Rattle.signs.specs.Faults.{number_of, letter_of, layer_fault, text_of};

use crate::reason::Reason;
use std::error::Error;
use std::fmt;

/// The layer that refused.
#[derive(Clone, Copy, PartialEq, Eq, Debug)]
pub enum Layer {
    Family,
    Sketch,
    List,
    StoredFile,
}

impl Layer {
    /// A refusal of this layer.
    pub fn fault(self, reason: Reason, place: u64) -> Fault
        ensures { result ≡ layer_fault self reason place }
    {
        Fault {
            reason,
            layer: self,
            place,
        }
    }
}

impl From<Layer> for char {
    ghost from_gives = { λ layer letter. letter ≡ letter_of layer };

    fn from(layer: Layer) -> char {
        match layer {
            Layer::Family => 'F',
            Layer::Sketch => 'S',
            Layer::List => 'L',
            Layer::StoredFile => 'D',
        }
    }
}

/// Why a call was refused. The place is 0 unless the refusal's rule gives one.
#[derive(Clone, Copy, PartialEq, Eq, Debug)]
pub struct Fault {
    pub reason: Reason,
    pub layer: Layer,
    pub place: u64,
}

impl Fault {
    /// The refusal's number, 1 to 20.
    pub fn number(self) -> u8
        ensures { result ≡ number_of self.reason }
    {
        u8::from(self.reason)
    }

    /// The layer's letter.
    pub fn letter(self) -> char
        ensures { result ≡ letter_of self.layer }
    {
        char::from(self.layer)
    }
}

/// `refused`, the number, the letter and the place, with a space between.
impl fmt::Display for Fault {
    ghost output = { λ fault. Some (text_of fault) };

    fn fmt<W: fmt::Write>(&self, f: &mut fmt::Formatter<W>) -> fmt::Result {
        let number = self.number();
        let letter = self.letter();
        let place = self.place;
        write!(f, "refused {number} {letter} {place}")
    }
}

impl Error for Fault {}
