// The text of a fraction.
ghost use Rattle.std.specs.Prelude.{refl};
ghost use Rattle.fractions.specs.Fractions.{exact_q};
ghost use Rattle.texts.specs.Texts.{fraction_text};
ghost use Rattle.texts.proofs.Telling.{same_fraction};
ghost use Rattle.texts.proofs.Longest.{fraction_no_longer, fraction_as_long};

use crate::{Print, Text};
use fractions::Fraction;
use itoa::Buffer;

impl Print for Fraction {
    ghost text = { λ v. fraction_text (Self.Kind.exact v) };

    ghost by_exact = { (fraction_text, λ v. refl) };

    ghost tells = { λ a b e. same_fraction (exact_q a) a.low a.fine (exact_q b) b.low b.fine e };

    ghost no_longer = { fraction_no_longer };

    ghost as_long = { fraction_as_long };

    /// The numerator, and the denominator behind a slash where that is not 1.
    fn text(self) -> Text {
        let mut buffer = Buffer::new();
        let mut text = Text::new();
        text.push_str(buffer.format(self.numerator()));
        if self.denominator() != 1 {
            text.push('/');
            text.push_str(buffer.format(self.denominator()));
        }
        text
    }
}
