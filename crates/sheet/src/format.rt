// The layout of a sheet: its marks, its counts, where each field stands, and how large a number may be.
ghost use Rattle.std.specs.Prelude.{◌≡◌, Some};
ghost use Rattle.sheet.specs.Checks.{judged};
ghost use Rattle.sheet.specs.Format.{letters, mark_of};
ghost use Rattle.sheet.specs.Reading.{count_checks};

use crate::refusal::Refusal;
pub use limits::{COEFFICIENT_LIMIT, FRAC, MOST_UNKNOWNS, REST, RIGHT_SIDE_LIMIT};
use std::fmt;
use std::str::from_utf8;

// The most lines and forms that a sheet may have, and with them the most numbers.
pub const MOST_LINES: usize = 40;

pub const MOST_FORMS: usize = 40;

pub const MOST_LINE_NUMBERS: usize = MOST_LINES * (MOST_UNKNOWNS + 1);

pub const MOST_FORM_NUMBERS: usize = MOST_FORMS * MOST_UNKNOWNS;

// The bytes at which the fields of the header stand.
pub const UNKNOWNS_FIELD: usize = 4;

pub const LINES_FIELD: usize = 6;

pub const FORMS_FIELD: usize = 8;

pub const LINES_START_FIELD: usize = 10;

pub const FORMS_START_FIELD: usize = 12;

pub const TOTAL_FIELD: usize = 14;

pub const HEADER_LENGTH: usize = 16;

// The byte at which the first line begins, just past the header.
pub const LINES_START: usize = HEADER_LENGTH;

/// The kind of number that a sheet is to be counted in.
#[derive(Clone, Copy, PartialEq, Eq, Debug)]
pub enum Mark {
    Frac,
    Rest,
}

impl Mark {
    /// The four letters with which a sheet of this kind begins.
    pub fn letters(self) -> &'static [u8; 4]
        ensures { result.now ≡ letters self }
    {
        match self {
            Mark::Frac => FRAC,
            Mark::Rest => REST,
        }
    }

    /// The letters as text.
    fn text(self) -> &'static str
        ensures { result.now ≡ letters self }
    {
        match from_utf8(self.letters()) {
            Ok(text) => text,
            Err(_) => unreachable(),
        }
    }

    /// The mark whose letters some bytes are, if any.
    pub fn of(bytes: &[u8]) -> Option<Mark>
        ensures { result ≡ mark_of bytes.now }
    {
        match bytes.as_array() {
            Some(FRAC) => Some(Mark::Frac),
            Some(REST) => Some(Mark::Rest),
            _ => None,
        }
    }
}

impl fmt::Display for Mark {
    ghost output = { λ m. Some (letters m) };

    fn fmt<W: fmt::Write>(&self, f: &mut fmt::Formatter<W>) -> fmt::Result {
        f.write_str(self.text())
    }
}

/// How many unknowns, lines and forms a sheet has.
#[derive(Clone, Copy, PartialEq, Eq, Debug)]
pub struct Counts {
    pub unknowns: usize,
    pub lines: usize,
    pub forms: usize,
}

impl Counts {
    /// Whether each count is in its range, or the field of the first that is not.
    pub fn check(self) -> Result<(), Refusal>
        ensures { result ≡ judged (count_checks self) }
    {
        if self.unknowns < 1 || self.unknowns > MOST_UNKNOWNS {
            return Err(Refusal::Count {
                byte: UNKNOWNS_FIELD,
            });
        }
        if self.lines > MOST_LINES {
            return Err(Refusal::Count { byte: LINES_FIELD });
        }
        if self.forms > MOST_FORMS {
            return Err(Refusal::Count { byte: FORMS_FIELD });
        }
        Ok(())
    }
}
