// Kinds of number: the interface that everything above counts through. It knows no kind.

#![tactic(auto)]

ghost use Rattle.std.specs.Prelude.{◌≡◌, ℕ, true, ◌↔◌, List, ℤ, pos, ◌+ℤ◌, None, Option};
ghost use Rattle.algebra.specs.Field.{Field, less, divided};
ghost use Rattle.kinds.specs.declared.refusal.Reason.{Reason};
ghost use Rattle.kinds.specs.Kinds.{Answers, AnswersQuotient, Takes, in_reach};
ghost use Rattle.kinds.specs.declared.whole.Whole.{Whole};

use crate::refusal::{Reason, Refusal};
use crate::whole::Whole;

pub mod refusal;
pub mod whole;

/// A kind of number. Its exact values are a field with a weight; a stored value stands for one that fits.
pub trait Kind: Copy + From<Whole> {
    /// The exact values, whether they fit or not.
    ghost Exact: { Type 0 };

    /// Their operations and laws.
    ghost field: { Field Exact };

    /// What a stored value stands for.
    ghost exact: { Self → Exact };

    /// Why an exact value does not fit, if it does not.
    ghost misfit: { Exact → Option Reason };

    /// What a whole number stands for.
    ghost taken: { ℤ → Exact };

    /// The letters by which the kind is marked.
    const MARK: [u8; 4];

    ghost MARK: { List ℕ };

    /// How many bytes its longest text has.
    const LONGEST: usize;

    ghost LONGEST: { ℕ };

    /// `MARK`, as a function.
    final fn mark_letters() -> [u8; 4]
        ensures { result ≡ MARK }
    {
        Self::MARK
    }

    /// `LONGEST`, as a function.
    final fn longest_text() -> usize
        ensures { result ≡ LONGEST }
    {
        Self::LONGEST
    }

    /// A whole number as a value.
    fn take(whole: i32) -> Result<Self, Refusal>
        ensures { Takes exact taken whole result }
    {
        Ok(Self::from(Whole::try_from(whole)?))
    }

    fn sum(self, other: Self) -> Result<Self, Reason>
        ensures { Answers exact misfit (field.plus (exact self) (exact other)) result };

    fn difference(self, other: Self) -> Result<Self, Reason>
        ensures { Answers exact misfit (less field (exact self) (exact other)) result };

    fn product(self, other: Self) -> Result<Self, Reason>
        ensures { Answers exact misfit (field.times (exact self) (exact other)) result };

    fn quotient(self, divisor: Self) -> Result<Self, Refusal>
        ensures { AnswersQuotient exact misfit field.zero (exact divisor) (divided field (exact self) (exact divisor)) result };

    fn is_zero(self) -> bool
        ensures { (result ≡ true) ↔ (exact self ≡ field.zero) };

    fn alike(self, other: Self) -> bool
        ensures { (result ≡ true) ↔ (exact self ≡ exact other) };

    fn heavier(self, other: Self) -> bool
        ensures { result ≡ field.heavier (exact self) (exact other) };

    /// A whole number in reach is taken as what it stands for.
    ghost from_whole: { (w : Whole) (v : Self) → Self.From.from_gives w v → exact v ≡ taken w.number };

    ghost taken_zero: { taken (pos 0) ≡ field.zero };

    ghost taken_one: { taken (pos 1) ≡ field.one };

    ghost taken_sum: { (a b : ℤ) → taken (a +ℤ b) ≡ field.plus (taken a) (taken b) };

    ghost taken_fits: { (z : ℤ) → in_reach z ≡ true → misfit (taken z) ≡ None };

    ghost stored_fits: { (v : Self) → misfit (exact v) ≡ None };

    /// Values that stand for the same are the same.
    ghost one_form: { (a b : Self) → exact a ≡ exact b → a ≡ b };
}
