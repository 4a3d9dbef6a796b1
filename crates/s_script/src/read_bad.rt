ghost use Rattle.std.specs.Prelude.{◌≡◌};
ghost use Rattle.s_script.specs.declared.read_bad.ReadBad.TheVariants as bad;

/// Why a line is wrong.
#[derive(Clone, Copy, Debug, PartialEq, Eq)]
pub enum Why {
    /// It is no line, or no line that can stand in this place.
    Form,
    /// A number is out of its range, the second node has the first one's address, or the body has too many lines.
    Range,
    /// The id was declared before.
    Twice,
    /// A loop is ended or left outside one, is open at the end of its body, or is the fifth that is open.
    Nest,
    /// The text ends where a line must come, or in the middle of a line.
    Missing,
}

/// Why a text was not read.
#[derive(Clone, Copy, Debug, PartialEq, Eq)]
pub enum ReadBad {
    /// The first wrong line, counted from 1, and its first cause.
    Refused(usize, Why),
    /// Memory was refused.
    NoMemory,
}

impl From<it_types::NoMemory> for ReadBad {
    ghost from_gives = { λ _ e. e ≡ bad.NoMemory };

    fn from(_error: it_types::NoMemory) -> ReadBad {
        ReadBad::NoMemory
    }
}
