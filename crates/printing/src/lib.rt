// The text of a value, written into lent memory.

#![tactic(auto)]

ghost use Rattle.std.specs.Prelude.{◌≡◌, ℕ, ◌≤◌, List, length};
ghost use Rattle.printing.specs.Printing.{printed, memory_after};

use arrayvec::ArrayString;
use kinds::Kind;
use kinds::refusal::Refusal;

mod digits;
pub mod fraction_text;
pub mod remainder_text;

/// How many bytes the longest text of all kinds has.
pub const ROOM: usize = 22;

/// The text of a value, on the stack.
pub type Text = ArrayString<ROOM>;

/// A kind of number whose values can be printed.
pub trait Print: Kind {
    /// The text of a value.
    ghost text: { Self → List ℕ };

    /// The text of a value.
    fn text(self) -> Text
        ensures { result.bytes ≡ text self };

    /// Writes the text at the start of the memory and answers how many bytes it has. Memory of fewer than `LONGEST` bytes is
    /// refused and left as it was.
    fn print(self, memory: &mut [u8]) -> Result<usize, Refusal>
        ensures answer { result ≡ printed Self.Kind.LONGEST (text self) memory.old }
        ensures holds { memory.new ≡ memory_after Self.Kind.LONGEST (text self) memory.old }
    {
        if memory.len() < Self::LONGEST {
            return Err(Refusal::Memory);
        }
        let text = self.text();
        memory[..text.len()].copy_from_slice(text.as_bytes());
        Ok(text.len())
    }

    /// It goes by the exact value alone, ..
    ghost by_exact: { (f : Self.Kind.Exact → List ℕ) × ((v : Self) → text v ≡ f (Self.Kind.exact v)) };

    /// .. and tells it.
    ghost tells: { (a b : Self) → text a ≡ text b → Self.Kind.exact a ≡ Self.Kind.exact b };

    /// No text is longer than the longest, and one is as long.
    ghost no_longer: { (v : Self) → length (text v) ≤ Self.Kind.LONGEST };

    ghost as_long: { (v : Self) × (length (text v) ≡ Self.Kind.LONGEST) };
}
