// REST: remainders by a prime as a kind of number.
ghost use Rattle.limits.specs.Limits.{rest_letters};
ghost use Rattle.algebra.specs.Remainder.{Rem};
ghost use Rattle.remainders.specs.Moduli.{modulus, rest_digits, modulus_prime};
ghost use Rattle.remainders.specs.Remainders.{exact_r, rest_field, misfit_r, taken_r};
ghost use Rattle.algebra.proofs.RemainderLaws.{whole_r_zero, whole_r_one, whole_r_plus};
ghost use Rattle.remainders.specs.RestValues.{stored_same, value_same};
ghost use Rattle.std.specs.Prelude.{◌≡◌, refl};

use crate::Remainder;
use crate::modulus::Modulus;
use kinds::Kind;
use kinds::refusal::{Reason, Refusal};
use kinds::whole::Whole;
use limits::REST;

/// The remainder of the whole number, also of a negative one.
impl From<Whole> for Remainder {
    ghost from_gives = { λ w r. exact_r r ≡ taken_r w.number };

    fn from(whole: Whole) -> Remainder {
        Remainder {
            value: Modulus::REST.whole(whole.number),
        }
    }
}

impl Kind for Remainder {
    ghost Exact = { Rem modulus };

    ghost field = { rest_field };

    ghost exact = { exact_r };

    ghost misfit = { misfit_r };

    ghost taken = { taken_r };

    const MARK: [u8; 4] = [REST[0], REST[1], REST[2], REST[3]];

    ghost MARK = { rest_letters };

    const LONGEST: usize = 4;

    ghost LONGEST = { rest_digits };

    ghost from_whole = { λ w v e. e };

    ghost taken_zero = { whole_r_zero modulus modulus_prime.0 };

    ghost taken_one = { whole_r_one modulus modulus_prime.0 };

    ghost taken_sum = { λ a b. whole_r_plus modulus modulus_prime.0 a b };

    ghost taken_fits = { λ z h. refl };

    ghost stored_fits = { λ v. refl };

    ghost one_form = { λ a b e. stored_same a b (value_same a (exact_r b) e) };

    #[tactic(auto, using(crate::proofs::ByModulus::same_value))]
    fn sum(self, other: Remainder) -> Result<Remainder, Reason> {
        Ok(Remainder {
            value: Modulus::REST.sum(self.value, other.value),
        })
    }

    #[tactic(auto, using(crate::proofs::ByModulus::same_value))]
    fn difference(self, other: Remainder) -> Result<Remainder, Reason> {
        Ok(Remainder {
            value: Modulus::REST.difference(self.value, other.value),
        })
    }

    #[tactic(auto, using(crate::proofs::ByModulus::same_value))]
    fn product(self, other: Remainder) -> Result<Remainder, Reason> {
        Ok(Remainder {
            value: Modulus::REST.product(self.value, other.value),
        })
    }

    fn quotient(self, divisor: Remainder) -> Result<Remainder, Refusal> {
        if divisor.is_zero() {
            return Err(Refusal::ZeroDivisor);
        }
        Ok(self.product(divisor.reciprocal())?)
    }

    fn is_zero(self) -> bool {
        self.value == 0
    }

    #[tactic(auto, using(crate::proofs::ByModulus::numbers_tell))]
    fn alike(self, other: Remainder) -> bool {
        self == other
    }

    /// What is not zero is heavier than zero, and nothing else is.
    fn heavier(self, other: Remainder) -> bool {
        self.value != 0 && other.value == 0
    }
}
