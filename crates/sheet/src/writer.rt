// Writes a sheet into lent memory.
ghost use Rattle.std.specs.Prelude.{◌≡◌, ◌≤◌, length, take, IfOk, Ok};
ghost use Rattle.memory.specs.Over.{over};
ghost use Rattle.sheet.specs.Checks.{judged};
ghost use Rattle.sheet.specs.Format.{lines_start};
ghost use Rattle.sheet.specs.Reading.{sheet_of};
ghost use Rattle.sheet.specs.Writing.{content, header_bytes, length_checks, write_checks, written, memory_after};

use crate::format::{Counts, LINES_START, Mark, UNKNOWNS_FIELD};
use crate::refusal::Refusal;
use crate::shape::Shape;
use crate::word::put_words;

/// Writes the header at the front of `memory`.
fn put_header(memory: &mut [u8], mark: Mark, shape: Shape)
    requires { lines_start ≤ length memory.old }
    ensures { memory.new ≡ over 0 (header_bytes mark shape.counts) memory.old }
{
    memory[..UNKNOWNS_FIELD].copy_from_slice(mark.letters());
    let counts = shape.counts;
    let fields = [
        counts.unknowns as u16,
        counts.lines as u16,
        counts.forms as u16,
        LINES_START as u16,
        shape.forms().start as u16,
        shape.total_length() as u16,
    ];
    put_words(memory, UNKNOWNS_FIELD, &fields);
}

/// Whether the lists and the memory have the lengths that the counts ask for.
fn check_lengths(shape: Shape, lines: usize, forms: usize, room: usize) -> Result<(), Refusal>
    ensures { result ≡ judged (length_checks shape.counts lines forms room) }
{
    if lines == shape.lines().count()
        && forms == shape.forms().count()
        && shape.total_length() <= room
    {
        Ok(())
    } else {
        Err(Refusal::Length)
    }
}

/// Whether a sheet of this shape can be written into `room` bytes, or the first thing that is wrong with it.
fn check(shape: Shape, lines: &[i32], forms: &[i32], room: usize) -> Result<(), Refusal>
    ensures { result ≡ judged (write_checks shape.counts lines.now forms.now room) }
{
    check_lengths(shape, lines.len(), forms.len(), room)?;
    shape.lines().check(lines)?;
    shape.forms().check(forms)
}

/// Writes a sheet at the front of `memory`, and says how long it is.
/// The lists hold the numbers row by row: each line's coefficients and then its right side, each form's coefficients.
pub fn write(
    mark: Mark,
    counts: Counts,
    lines: &[i32],
    forms: &[i32],
    memory: &mut [u8],
) -> Result<usize, Refusal>
    ensures value { result ≡ written (content mark counts lines.now forms.now) memory.old }
    ensures after { memory.new ≡ memory_after (content mark counts lines.now forms.now) memory.old }
    ensures back { IfOk result (λ n. sheet_of (take n memory.new) ≡ Ok (content mark counts lines.now forms.now)) }
{
    let shape = Shape::try_from(counts)?;
    check(shape, lines, forms, memory.len())?;
    put_header(memory, mark, shape);
    put_words(memory, LINES_START, lines);
    put_words(memory, shape.forms().start, forms);
    Ok(shape.total_length())
}
