// Cases that were worked by hand, and what the crates below agree on.

#![tactic(auto)]

ghost use Rattle.std.specs.Prelude.{◌≡◌, length};
ghost use Rattle.limits.specs.Limits.{most_unknowns, coefficient_limit, right_side_limit};
ghost use Rattle.sheet.specs.Format.{letters};
ghost use Rattle.sheet.specs.declared.format.Mark.TheVariants.{Frac, Rest};
ghost use Rattle.fractions.specs.Terms.{longest_fraction};
ghost use Rattle.remainders.specs.Moduli.{rest_digits};
ghost use Rattle.worked.specs.Worked.{Worked, cases};
ghost use Rattle.worked.specs.Agreed.{Agreed};

use fractions::Fraction;
use kinds::Kind;
use limits::{COEFFICIENT_LIMIT, MOST_UNKNOWNS, RIGHT_SIDE_LIMIT};
use remainders::Remainder;

/// How many cases were worked by hand. Its contract says that the definitions give, in each of them, what they should.
pub fn worked_cases() -> usize
    ensures hold { Worked }
    ensures count { result ≡ length cases }
{
    37
}

/// How many unknowns there may be, and how far from zero a coefficient and a right side may lie. Its contract says that the
/// marks of a sheet are those of the kinds of number, and that the code has the letters and the limits as they are defined.
pub fn shared_limits() -> (usize, u32, u32)
    ensures agreed { Agreed }
    ensures value { result ≡ (most_unknowns, coefficient_limit, right_side_limit) }
{
    (MOST_UNKNOWNS, COEFFICIENT_LIMIT, RIGHT_SIDE_LIMIT)
}

/// The mark of each kind, and how many bytes its longest text has. Its contract says that each counts the sheets that are
/// marked for it.
pub fn kind_constants() -> ([u8; 4], usize, [u8; 4], usize)
    ensures { result ≡ (letters Frac, longest_fraction, letters Rest, rest_digits) }
{
    (
        Fraction::MARK,
        Fraction::LONGEST,
        Remainder::MARK,
        Remainder::LONGEST,
    )
}
