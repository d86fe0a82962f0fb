// A sheet that has been read.
ghost use Rattle.std.specs.Prelude.{◌≡◌, true, take, is_ok};
ghost use Rattle.sheet.specs.Checks.{judged};
ghost use Rattle.sheet.specs.Format.{line_numbers, form_numbers};
ghost use Rattle.sheet.specs.Reading.{number_checks};

use crate::format::{Counts, MOST_FORM_NUMBERS, MOST_LINE_NUMBERS, Mark};
use crate::shape::Shape;

/// A sheet with its numbers, which need no heap: there are never more than the format allows.
/// Its counts and numbers are in their ranges, so what is read can always be written again.
#[derive(Clone, Copy)]
pub struct Sheet {
    pub(crate) mark: Mark,
    pub(crate) shape: Shape,
    /// The numbers of the lines, row by row; the rest is unused.
    pub(crate) lines: [i32; MOST_LINE_NUMBERS],
    /// The numbers of the forms, row by row; the rest is unused.
    pub(crate) forms: [i32; MOST_FORM_NUMBERS],
    ghost ranged: { is_ok (judged (number_checks shape.counts (take (line_numbers shape.counts) lines) (take (form_numbers shape.counts) forms))) ≡ true },
}

impl Sheet {
    ghost use Rattle.sheet.specs.Typed.{says};

    pub fn mark(&self) -> Mark
        ensures { result ≡ (says self.now).mark }
    {
        self.mark
    }

    pub fn counts(&self) -> Counts
        ensures { result ≡ (says self.now).counts }
    {
        self.shape.counts
    }
}
