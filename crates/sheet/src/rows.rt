// The lines and forms of a sheet that was read, one by one.
ghost use Rattle.std.specs.Prelude.{◌≡◌, ◌+◌, ◌*◌, ◌≤◌, length, take, cond, nat_lt, IfSome, Some, None};
ghost use Rattle.std.specs.Option.{option_map};
ghost use Rattle.sheet.specs.Blocks.{count};
ghost use Rattle.sheet.specs.Reading.{row, line_of, form_of};
ghost use Rattle.sheet.specs.Rows.{IsRowsOf};
ghost use Rattle.sheet.specs.Typed.{says};

use crate::block::Block;
use crate::typed::Sheet;
use std::slice::ChunksExact;

/// The rows of a block, in order. Its numbers stand at the front of `numbers`.
fn rows_of(numbers: &[i32], block: Block) -> ChunksExact<'_, i32>
    requires { count block ≤ length numbers.now }
    ensures { IsRowsOf (take (count block) numbers.now) block.rows block.width result }
{
    numbers[..block.count()].chunks_exact(block.width)
}

/// Row `i` of some rows of numbers, counted from 0. It is found by its place, without going through the rows before it.
fn row_at(numbers: &[i32], rows: usize, width: usize, i: usize) -> Option<&[i32]>
    requires { length numbers.now ≡ rows * width }
    ensures value { option_map (λ s. s.now) result ≡ cond (nat_lt i rows) (Some (row width i numbers.now)) None }
    ensures len { IfSome result (λ s. length s.now ≡ width) }
{
    if i >= rows {
        return None;
    }
    let start = i * width;
    Some(&numbers[start..start + width])
}

/// Row `i` of a block, counted from 0. Its numbers stand at the front of `numbers`.
fn row_of(numbers: &[i32], block: Block, i: usize) -> Option<&[i32]>
    requires { count block ≤ length numbers.now }
    ensures value { option_map (λ s. s.now) result ≡ cond (nat_lt i block.rows) (Some (row block.width i (take (count block) numbers.now))) None }
    ensures len { IfSome result (λ s. length s.now ≡ block.width) }
{
    row_at(&numbers[..block.count()], block.rows, block.width, i)
}

impl Sheet {
    /// The lines, in order: each is its coefficients and then its right side.
    pub fn lines(&self) -> ChunksExact<'_, i32>
        ensures { IsRowsOf (says self.now).lines (says self.now).counts.lines ((says self.now).counts.unknowns + 1) result }
    {
        rows_of(&self.lines, self.shape.lines())
    }

    /// The forms, in order: each is its coefficients.
    pub fn forms(&self) -> ChunksExact<'_, i32>
        ensures { IsRowsOf (says self.now).forms (says self.now).counts.forms (says self.now).counts.unknowns result }
    {
        rows_of(&self.forms, self.shape.forms())
    }

    /// Line `i`, counted from 0: its coefficients and then its right side.
    pub fn line(&self, i: usize) -> Option<&[i32]>
        ensures value { option_map (λ s. s.now) result ≡ line_of (says self.now) i }
        ensures len { IfSome result (λ s. length s.now ≡ (says self.now).counts.unknowns + 1) }
    {
        row_of(&self.lines, self.shape.lines(), i)
    }

    /// Form `i`, counted from 0: its coefficients.
    pub fn form(&self, i: usize) -> Option<&[i32]>
        ensures value { option_map (λ s. s.now) result ≡ form_of (says self.now) i }
        ensures len { IfSome result (λ s. length s.now ≡ (says self.now).counts.unknowns) }
    {
        row_of(&self.forms, self.shape.forms(), i)
    }
}
