// Sums and products of fractions, reduced as they are made, so that no number is wider than a word's square.
ghost use Rattle.std.specs.Prelude.{◌≡◌, ◌≢◌, ◌/◌, ◌<◌, ◌≤◌, pos, ◌+ℤ◌, ◌*ℤ◌, unsigned_abs};
ghost use Rattle.fractions.specs.Terms.{part_limit};
ghost use Rattle.integers.specs.Divisors.{gcd as greatest};
ghost use Rattle.integers.specs.Signs.{quot, with_sign};
ghost use Rattle.algebra.specs.Fraction.{zero_q, plus_q, times_q, minus_q, over_q};
ghost use Rattle.fractions.specs.Fractions.{exact_q, lowest_q, misfit_q};
ghost use Rattle.kinds.specs.Kinds.{Answers};

use crate::divisors::gcd;
use crate::{Fraction, Lowest};
use kinds::refusal::Reason;

// How large the numerator, without its sign, and the denominator of a stored fraction may be.
const PART_LIMIT: u64 = 2_147_483_647;

impl Lowest {
    /// 0/1
    fn zero() -> Lowest
        ensures { lowest_q result ≡ zero_q }
    {
        Lowest {
            numerator: 0,
            denominator: 1,
        }
    }
}

/// The fraction as it is stored, if it fits.
impl TryFrom<Lowest> for Fraction {
    type Error = Reason;

    ghost try_from_gives = { λ w r. Answers exact_q misfit_q (lowest_q w) r };

    fn try_from(lowest: Lowest) -> Result<Fraction, Reason> {
        if lowest.numerator.unsigned_abs() <= PART_LIMIT && lowest.denominator <= PART_LIMIT {
            Ok(Fraction {
                numerator: lowest.numerator as i32,
                denominator: lowest.denominator as u32,
            })
        } else {
            Err(Reason::TooLarge)
        }
    }
}

impl Fraction {
    /// -a/b
    pub(crate) fn negative(self) -> Fraction
        ensures { exact_q result ≡ minus_q (exact_q self) }
    {
        Fraction {
            numerator: -self.numerator,
            denominator: self.denominator,
        }
    }

    /// b/a, where a is not zero
    pub(crate) fn reciprocal(self) -> Fraction
        requires { exact_q self ≢ zero_q }
        ensures { exact_q result ≡ over_q (exact_q self) }
    {
        Fraction {
            numerator: with_sign_of(self.numerator, self.denominator),
            denominator: self.numerator.unsigned_abs(),
        }
    }

    /// a/b + c/d
    pub(crate) fn plus(self, other: Fraction) -> Lowest
        ensures { lowest_q result ≡ plus_q (exact_q self) (exact_q other) }
    {
        let common = gcd(self.denominator, other.denominator);
        if common == 1 {
            self.plus_apart(other)
        } else {
            self.plus_sharing(other, common)
        }
    }

    /// a x + c y
    fn joint(self, x: u32, other: Fraction, y: u32) -> i64
        requires x { x ≤ part_limit }
        requires y { y ≤ part_limit }
        ensures value { result ≡ self.numerator *ℤ pos x +ℤ other.numerator *ℤ pos y }
        ensures small { unsigned_abs result < 9223372036854775808 }
    {
        self.numerator as i64 * x as i64 + other.numerator as i64 * y as i64
    }

    /// (a d + c b)/(b d), where b and d have nothing in common
    fn plus_apart(self, other: Fraction) -> Lowest
        requires { greatest self.denominator other.denominator ≡ 1 }
        ensures { lowest_q result ≡ plus_q (exact_q self) (exact_q other) }
    {
        Lowest {
            numerator: self.joint(other.denominator, other, self.denominator),
            denominator: self.denominator as u64 * other.denominator as u64,
        }
    }

    /// t/h over (b/g)(d/h), where t = a (d/g) + c (b/g), and h is common to t and g
    #[tactic(auto, using(integers::proofs::GcdLaws::gcd_pos))]
    fn plus_sharing(self, other: Fraction, common: u32) -> Lowest
        requires { common ≡ greatest self.denominator other.denominator }
        ensures { lowest_q result ≡ plus_q (exact_q self) (exact_q other) }
    {
        let left = self.denominator / common;
        let numerator = self.joint(other.denominator / common, other, left);
        let again = gcd((numerator.unsigned_abs() % common as u64) as u32, common);
        Lowest {
            numerator: part(numerator, again),
            denominator: left as u64 * share(other.denominator, again) as u64,
        }
    }

    /// a/b times c/d
    pub(crate) fn times(self, other: Fraction) -> Lowest
        ensures { lowest_q result ≡ times_q (exact_q self) (exact_q other) }
    {
        if self.numerator == 0 || other.numerator == 0 {
            return Lowest::zero();
        }
        self.times_crosswise(other)
    }

    /// (a/g)(c/h) over (b/h)(d/g), where g is common to a and d, and h to c and b
    fn times_crosswise(self, other: Fraction) -> Lowest
        ensures { lowest_q result ≡ times_q (exact_q self) (exact_q other) }
    {
        let g = gcd(self.numerator.unsigned_abs(), other.denominator);
        let h = gcd(other.numerator.unsigned_abs(), self.denominator);
        Lowest {
            numerator: part_product(self.numerator, g, other.numerator, h),
            denominator: share(self.denominator, h) as u64 * share(other.denominator, g) as u64,
        }
    }
}

/// (a/g)(c/h), where g divides a, and h divides c
fn part_product(a: i32, g: u32, c: i32, h: u32) -> i64
    requires left { 0 < g }
    requires right { 0 < h }
    ensures { result ≡ quot a g *ℤ quot c h }
{
    part(a as i64, g) * part(c as i64, h)
}

/// z/g, where g divides z
fn part(z: i64, g: u32) -> i64
    requires some { 0 < g }
    requires small { unsigned_abs z < 9223372036854775808 }
    ensures value { result ≡ quot z g }
    ensures bound { unsigned_abs result ≤ unsigned_abs z }
{
    if g == 1 { z } else { z / g as i64 }
}

/// d/g, where g divides d
fn share(d: u32, g: u32) -> u32
    requires { 0 < g }
    ensures { result ≡ d / g }
{
    if g == 1 { d } else { d / g }
}

/// `size` with the sign of z
fn with_sign_of(z: i32, size: u32) -> i32
    requires { size ≤ part_limit }
    ensures { result ≡ with_sign z size }
{
    if z < 0 { -(size as i32) } else { size as i32 }
}
