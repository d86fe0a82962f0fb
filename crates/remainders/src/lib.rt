// REST: how remainders are stored.

#![tactic(auto)]

ghost use Rattle.std.specs.Prelude.{◌≡◌, ◌≢◌, ◌<◌};
ghost use Rattle.remainders.specs.Moduli.{modulus};

use crate::modulus::Modulus;

pub mod kind;
mod modulus;

/// A remainder by the modulus of REST.
#[derive(Clone, Copy, PartialEq, Eq, Debug)]
pub struct Remainder {
    value: u32,
    ghost below: { value < modulus },
}

impl Remainder {
    ghost use Rattle.remainders.specs.Remainders.{exact_r, rest_field};

    /// The number, from 0 to one below the modulus.
    pub fn value(self) -> u32
        ensures { result ≡ (exact_r self).value }
    {
        self.value
    }

    /// The reciprocal of what is not zero.
    pub(crate) fn reciprocal(self) -> Remainder
        requires { exact_r self ≢ rest_field.zero }
        ensures { exact_r result ≡ rest_field.over (exact_r self) }
    {
        Remainder {
            value: Modulus::REST.reciprocal(self.value),
        }
    }
}
