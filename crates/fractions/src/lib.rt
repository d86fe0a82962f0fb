// FRAC: fractions in lowest terms, those that are stored and those that may not fit.

#![tactic(auto)]

ghost use Rattle.std.specs.Prelude.{◌≡◌, ◌<◌, ◌≤◌, unsigned_abs};
ghost use Rattle.integers.specs.Divisors.{gcd};
ghost use Rattle.fractions.specs.Terms.{part_limit};

mod divisors;
pub mod kind;
mod operations;

/// A fraction in lowest terms that fits: the denominator is at least 1, and equal fractions are equal structs.
#[derive(Clone, Copy, PartialEq, Eq, Debug)]
pub struct Fraction {
    numerator: i32,
    denominator: u32,
    ghost above: { 0 < denominator },
    ghost lowest: { gcd (unsigned_abs numerator) denominator ≡ 1 },
    ghost low: { unsigned_abs numerator ≤ part_limit },
    ghost fine: { denominator ≤ part_limit },
}

impl Fraction {
    ghost use Rattle.fractions.specs.Fractions.{exact_q};

    /// The numerator in lowest terms, with the sign.
    pub fn numerator(self) -> i32
        ensures { result ≡ (exact_q self).num }
    {
        self.numerator
    }

    /// The denominator in lowest terms, at least 1.
    pub fn denominator(self) -> u32
        ensures { result ≡ (exact_q self).den }
    {
        self.denominator
    }
}

/// A result in lowest terms, whether it fits or not.
#[derive(Clone, Copy)]
struct Lowest {
    numerator: i64,
    denominator: u64,
    ghost above: { 0 < denominator },
    ghost lowest: { gcd (unsigned_abs numerator) denominator ≡ 1 },
}
