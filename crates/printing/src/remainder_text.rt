// The text of a remainder.
ghost use Rattle.texts.specs.Texts.{rest_text};
ghost use Rattle.std.specs.Prelude.{refl};
ghost use Rattle.texts.proofs.Spelling.{same_rest};
ghost use Rattle.texts.proofs.Longest.{rest_no_longer, rest_as_long};

use crate::digits::put_padded;
use crate::{Print, Text};
use itoa::Buffer;
use kinds::Kind;
use kinds::refusal::Refusal;
use remainders::Remainder;

impl Print for Remainder {
    ghost text = { λ v. rest_text (Self.Kind.exact v) };

    ghost by_exact = { (rest_text, λ v. refl) };

    ghost tells = { λ a b e. same_rest (Self.Kind.exact a) (Self.Kind.exact b) e };

    ghost no_longer = { rest_no_longer };

    ghost as_long = { rest_as_long };

    /// Four digits, zeros in front.
    fn text(self) -> Text {
        let mut buffer = Buffer::new();
        let digits = buffer.format(self.value());
        let mut text = Text::new();
        text.push_str(&"0000"[digits.len()..]);
        text.push_str(digits);
        text
    }

    /// The digits go straight into the memory, which takes a fifth of the time, or less, that a text on the way does.
    fn print(self, memory: &mut [u8]) -> Result<usize, Refusal> {
        if memory.len() < Self::LONGEST {
            return Err(Refusal::Memory);
        }
        put_padded(memory, 0, self.value(), Self::LONGEST);
        Ok(Self::LONGEST)
    }
}
