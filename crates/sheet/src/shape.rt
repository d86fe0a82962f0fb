// The shape of a sheet: counts that are in range, and where they put its numbers.
ghost use Rattle.std.specs.Prelude.{◌≡◌, ◌≤◌, true, is_ok, Ok, Err, MatchResult};
ghost use Rattle.sheet.specs.Checks.{judged};
ghost use Rattle.sheet.specs.Blocks.{count, IsLines, IsForms};
ghost use Rattle.sheet.specs.Format.{most_line_numbers, most_form_numbers, most_length, total_length};
ghost use Rattle.sheet.specs.Reading.{count_checks};

use crate::block::Block;
use crate::format::{Counts, LINES_START};
use crate::refusal::Refusal;

/// Counts that are each in range, and so settle where everything in a sheet stands.
#[derive(Clone, Copy)]
pub(crate) struct Shape {
    pub(crate) counts: Counts,
    ghost counted: { is_ok (judged (count_checks counts)) ≡ true },
}

impl TryFrom<Counts> for Shape {
    type Error = Refusal;

    ghost try_from_gives = { λ c r. MatchResult r (λ s. (s.counts ≡ c) × (judged (count_checks c) ≡ Ok tt)) (λ e. judged (count_checks c) ≡ Err e) };

    fn try_from(counts: Counts) -> Result<Self, Refusal> {
        counts.check()?;
        Ok(Shape { counts })
    }
}

impl Shape {
    /// The lines: each has a coefficient for every unknown, and then a right side.
    pub(crate) fn lines(self) -> Block
        ensures value { IsLines self.counts result }
        ensures bound { count result ≤ most_line_numbers }
    {
        Block {
            start: LINES_START,
            rows: self.counts.lines,
            width: self.counts.unknowns + 1,
            unknowns: self.counts.unknowns,
        }
    }

    /// The forms, just past the lines: each has a coefficient for every unknown.
    pub(crate) fn forms(self) -> Block
        ensures value { IsForms self.counts result }
        ensures bound { count result ≤ most_form_numbers }
    {
        Block {
            start: self.lines().end(),
            rows: self.counts.forms,
            width: self.counts.unknowns,
            unknowns: self.counts.unknowns,
        }
    }

    /// How many bytes the whole sheet has.
    pub(crate) fn total_length(self) -> usize
        ensures value { result ≡ total_length self.counts }
        ensures bound { result ≤ most_length }
    {
        self.forms().end()
    }
}
