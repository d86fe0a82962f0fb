// Whole numbers that a kind takes.
ghost use Rattle.std.specs.Prelude.{◌≤◌, unsigned_abs};
ghost use Rattle.limits.specs.Limits.{right_side_limit};

use crate::refusal::Refusal;
use limits::RIGHT_SIDE_LIMIT;

/// A whole number in reach.
#[derive(Clone, Copy, PartialEq, Eq, Debug)]
pub struct Whole {
    pub number: i32,
    ghost near: { unsigned_abs number ≤ right_side_limit },
}

impl TryFrom<i32> for Whole {
    type Error = Refusal;

    ghost use Rattle.kinds.specs.Kinds.{Takes};

    ghost try_from_gives = { Takes (λ w. w.number) (λ z. z) };

    fn try_from(number: i32) -> Result<Whole, Refusal> {
        if number.unsigned_abs() > RIGHT_SIDE_LIMIT {
            return Err(Refusal::Number { position: 1 });
        }
        Ok(Whole { number })
    }
}
