ghost use Rattle.std.specs.Prelude.{◌≡◌};
ghost use Rattle.signs.specs.Faults.{number_of};

/// What was wrong: a word for each refusal of the part, under its number.
#[derive(Clone, Copy, PartialEq, Eq, Debug)]
pub enum Reason {
    Width = 1,
    Rows = 2,
    SignByte = 3,
    Unbalanced = 4,
    Seed = 5,
    Slot = 6,
    Block = 7,
    Interval = 8,
    Shape = 9,
    Table = 10,
    ForeignCells = 11,
    Weight = 12,
    Full = 13,
    Layout = 14,
    Field = 15,
    OptionOpen = 16,
    NoOption = 17,
    Card = 18,
    Figures = 19,
    Output = 20,
}

impl From<Reason> for u8 {
    ghost from_gives = { λ reason n. n ≡ number_of reason };

    fn from(reason: Reason) -> u8 {
        reason as u8
    }
}
