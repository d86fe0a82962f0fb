// Rows of numbers in a sheet, and which range each number has to lie in.
ghost use Rattle.std.specs.Prelude.{◌≡◌, ◌+◌, ◌*◌, ◌%◌, ◌<◌, ◌≤◌, length, OnOk};
ghost use Rattle.sheet.specs.Checks.{judged};
ghost use Rattle.sheet.specs.Format.{most_length};
ghost use Rattle.sheet.specs.Numbers.{in_range};
ghost use Rattle.sheet.specs.Steps.{BlockRead};

use crate::format::{COEFFICIENT_LIMIT, RIGHT_SIDE_LIMIT};
use crate::refusal::Refusal;
use crate::word::number;

/// Rows of numbers, one after another: the lines of a sheet, or its forms. It ends within the largest sheet.
#[derive(Clone, Copy)]
pub(crate) struct Block {
    /// The byte at which the first row begins.
    pub(crate) start: usize,
    pub(crate) rows: usize,
    /// How many numbers a row has.
    pub(crate) width: usize,
    /// How many of them are coefficients.
    pub(crate) unknowns: usize,
    ghost wide: { 1 ≤ width },
    ghost short: { start + 4 * (rows * width) ≤ most_length },
}

impl Block {
    ghost use Rattle.sheet.specs.declared.refusal.Refusal.TheVariants.{Number};
    ghost use Rattle.sheet.specs.Blocks.{count, end_of, numbers_of, checks_of};

    /// How many numbers it has.
    pub(crate) fn count(self) -> usize
        ensures { result ≡ count self }
    {
        self.rows * self.width
    }

    /// The byte just past its last number.
    pub(crate) fn end(self) -> usize
        ensures { result ≡ end_of self }
    {
        self.start + 4 * self.count()
    }

    /// Whether `x` may stand in the column `column` of a row: first come the coefficients, then perhaps a right side.
    fn takes(self, x: i32, column: usize) -> bool
        ensures { result ≡ in_range self.unknowns column x }
    {
        let limit = if column < self.unknowns {
            COEFFICIENT_LIMIT
        } else {
            RIGHT_SIDE_LIMIT
        };
        x.unsigned_abs() <= limit
    }

    /// The refusal of its number `place`, counted from 0.
    fn refusal(self, place: usize) -> Refusal
        requires { place < count self }
        ensures { result ≡ Number (place % self.width + 1) (self.start + 4 * place) }
    {
        Refusal::Number {
            position: place % self.width + 1,
            byte: self.start + 4 * place,
        }
    }

    /// Whether each of its numbers is in range, or the place of the first that is not.
    pub(crate) fn check(self, numbers: &[i32]) -> Result<(), Refusal>
        requires { length numbers.now ≡ count self }
        ensures { result ≡ judged (checks_of self numbers.now) }
    {
        for (k, x) in numbers.iter().enumerate() {
            if !self.takes(*x, k % self.width) {
                return Err(self.refusal(k));
            }
        }
        Ok(())
    }

    /// Reads its numbers into `into`, up to the first that is out of range.
    #[tactic(auto, using(crate::proofs::Blocks::inside))]
    fn read_into(self, bytes: &[u8], into: &mut [i32]) -> Result<(), Refusal>
        requires inside { end_of self ≤ length bytes.now }
        requires room { length into.old ≡ count self }
        ensures verdict { result ≡ judged (checks_of self (numbers_of bytes.now self)) }
        ensures read { OnOk result (into.new ≡ numbers_of bytes.now self) }
    {
        let mut verdict = Ok(());
        'rows: for row in 0..self.rows {
            for column in 0..self.width {
                let place = row * self.width + column;
                let x = number(bytes, self.start + 4 * place);
                if !self.takes(x, column) {
                    verdict = Err(self.refusal(place));
                    break 'rows;
                }
                into[place] = x;
            }
        }
        verdict
    }

    /// Its numbers, at the front of an array that has room for them.
    pub(crate) fn read<const N: usize>(self, bytes: &[u8]) -> Result<[i32; N], Refusal>
        requires inside { end_of self ≤ length bytes.now }
        requires room { count self ≤ N }
        ensures { BlockRead result (checks_of self (numbers_of bytes.now self)) (count self) (numbers_of bytes.now self) }
    {
        let mut numbers = [0; N];
        self.read_into(bytes, &mut numbers[..self.count()])?;
        Ok(numbers)
    }
}
