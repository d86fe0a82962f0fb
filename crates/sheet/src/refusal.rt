// Why a sheet is refused.
ghost use Rattle.std.specs.Prelude.{◌≡◌};
ghost use Rattle.sheet.specs.Refusals.{number_of, byte_of, position_of};

/// Why a sheet cannot be read or written.
#[derive(Clone, Copy, PartialEq, Eq, Debug)]
pub enum Refusal {
    /// Fewer bytes than a header has.
    Short { length: usize },
    /// The first four bytes are no mark.
    NoMark,
    /// A count is out of its range; `byte` is where its field stands.
    Count { byte: usize },
    /// An offset or the total is not what the counts make it, or not the number of bytes given.
    Layout { byte: usize },
    /// A list does not have the length that the counts name, or the memory is too short.
    Length,
    /// A number is out of its range: its position in its line or form, and its first byte.
    Number { position: usize, byte: usize },
}

impl Refusal {
    /// The number by which a refusal is known.
    pub fn number(self) -> u8
        ensures { result ≡ number_of self }
    {
        match self {
            Refusal::Short { .. } => 1,
            Refusal::NoMark => 2,
            Refusal::Count { .. } => 3,
            Refusal::Layout { .. } => 4,
            Refusal::Length => 6,
            Refusal::Number { .. } => 7,
        }
    }

    /// The byte that it tells, if any.
    pub fn byte(self) -> Option<usize>
        ensures { result ≡ byte_of self }
    {
        match self {
            Refusal::Short { length } => Some(length),
            Refusal::NoMark => Some(0),
            Refusal::Count { byte } => Some(byte),
            Refusal::Layout { byte } => Some(byte),
            Refusal::Length => None,
            Refusal::Number { byte, .. } => Some(byte),
        }
    }

    /// The position that it tells, if any.
    pub fn position(self) -> Option<usize>
        ensures { result ≡ position_of self }
    {
        match self {
            Refusal::Number { position, .. } => Some(position),
            _ => None,
        }
    }
}
