// FRAC: exact fractions as a kind of number.
ghost use Rattle.std.specs.Prelude.{◌≡◌};
ghost use Rattle.limits.specs.Limits.{frac_letters};
ghost use Rattle.algebra.specs.Fraction.{Q, whole_q};
ghost use Rattle.algebra.proofs.FractionField.{field_q, whole_q_plus};
ghost use Rattle.fractions.specs.Fractions.{exact_q, misfit_q};
ghost use Rattle.fractions.specs.Terms.{longest_fraction};
ghost use Rattle.fractions.specs.FracValues.{fraction_same, same_num, same_den};
ghost use Rattle.std.proofs.Common.{rules};

use crate::Fraction;
use kinds::Kind;
use kinds::refusal::{Reason, Refusal};
use kinds::whole::Whole;
use limits::FRAC;

/// The whole number over 1.
impl From<Whole> for Fraction {
    ghost from_gives = { λ w r. exact_q r ≡ whole_q w.number };

    fn from(whole: Whole) -> Fraction {
        Fraction {
            numerator: whole.number,
            denominator: 1,
        }
    }
}

impl Kind for Fraction {
    ghost Exact = { Q };

    ghost field = { field_q };

    ghost exact = { exact_q };

    ghost misfit = { misfit_q };

    ghost taken = { whole_q };

    const MARK: [u8; 4] = [FRAC[0], FRAC[1], FRAC[2], FRAC[3]];

    ghost MARK = { frac_letters };

    const LONGEST: usize = 22;

    ghost LONGEST = { longest_fraction };

    ghost from_whole = { λ w v e. e };

    ghost taken_zero = { Prim.search rules };

    ghost taken_one = { Prim.search rules };

    ghost taken_sum = { λ a b. whole_q_plus a b };

    ghost taken_fits = { Prim.search rules };

    ghost stored_fits = { Prim.search rules };

    ghost one_form = { λ a b e. fraction_same a b (same_num (exact_q a) (exact_q b) e) (same_den (exact_q a) (exact_q b) e) };

    fn sum(self, other: Fraction) -> Result<Fraction, Reason> {
        Fraction::try_from(self.plus(other))
    }

    fn difference(self, other: Fraction) -> Result<Fraction, Reason> {
        Fraction::try_from(self.plus(other.negative()))
    }

    fn product(self, other: Fraction) -> Result<Fraction, Reason> {
        Fraction::try_from(self.times(other))
    }

    fn quotient(self, divisor: Fraction) -> Result<Fraction, Refusal> {
        if divisor.is_zero() {
            return Err(Refusal::ZeroDivisor);
        }
        Ok(Fraction::try_from(self.times(divisor.reciprocal()))?)
    }

    #[tactic(auto, using(crate::proofs::Fitting::zero_tells))]
    fn is_zero(self) -> bool {
        self.numerator == 0
    }

    #[tactic(auto, using(crate::proofs::Fitting::parts_tell))]
    fn alike(self, other: Fraction) -> bool {
        self == other
    }

    /// |a|/b > |c|/d exactly when |a| d > |c| b.
    fn heavier(self, other: Fraction) -> bool {
        let left = self.numerator.unsigned_abs() as u64 * other.denominator as u64;
        let right = other.numerator.unsigned_abs() as u64 * self.denominator as u64;
        left > right
    }
}
