// The text of a sheet, so that a person can hold it against the client's own figures.

#![tactic(auto)]

ghost use Rattle.std.specs.Prelude.{◌≡◌, ◌+◌, ◌<◌, ◌≤◌, ◌^◌, length, take, slice_get, IfOk, Some, string_bytes};
ghost use Rattle.std.specs.Fmt.{WritesOnOk};
ghost use Rattle.std.specs.Slice.Iter.{chunks_exact_rest, chunks_exact_size};
ghost use Rattle.sheet.specs.Typed.{says};
ghost use Rattle.listing.specs.Listing.{first_sign, next_sign, term_text, sum_text, row_text, rows_text, header_text, lines_text, forms_text, sheet_text, refusal_text, listing};

use sheet::format::Counts;
use sheet::reader::read;
use sheet::refusal::Refusal;
use sheet::typed::Sheet;
use std::alloc::{AllocError, Global};
use std::fmt;
use std::slice::ChunksExact;

/// What stands before the first term of a sum.
fn leading_sign(coefficient: i32) -> &'static str
    ensures { result.now ≡ first_sign coefficient }
{
    if coefficient < 0 { "-" } else { "" }
}

/// What stands before every other term: its sign, with blanks around it.
fn joining_sign(coefficient: i32) -> &'static str
    ensures { result.now ≡ next_sign coefficient }
{
    if coefficient < 0 { " - " } else { " + " }
}

/// A coefficient that is not zero, and the number of its unknown. It is shown without its sign.
#[derive(Clone, Copy)]
struct Term {
    unknown: usize,
    coefficient: i32,
}

impl Term {
    /// The term of coefficient `k`, counted from 0.
    fn new(k: usize, coefficient: i32) -> Term
        requires { k + 1 < 2 ^ 64 }
        ensures unknown { result.unknown ≡ k + 1 }
        ensures coefficient { result.coefficient ≡ coefficient }
    {
        Term {
            unknown: k + 1,
            coefficient,
        }
    }
}

impl fmt::Display for Term {
    ghost output = { λ t. Some (term_text (t.unknown, t.coefficient)) };

    fn fmt<W: fmt::Write>(&self, f: &mut fmt::Formatter<W>) -> fmt::Result {
        let unknown = self.unknown;
        match self.coefficient.unsigned_abs() {
            1 => write!(f, "r{unknown}"),
            size => write!(f, "{size} r{unknown}"),
        }
    }
}

/// The sum of coefficients times unknowns, which are numbered from 1.
#[derive(Clone, Copy)]
struct Sum<'a>(&'a [i32]);

impl fmt::Display for Sum<'_> {
    ghost output = { λ s. Some (sum_text s.0.now) };

    fn fmt<W: fmt::Write>(&self, f: &mut fmt::Formatter<W>) -> fmt::Result {
        let mut coefficients = self.0.iter().enumerate();
        let Some((k, &coefficient)) = coefficients.find(|&(_, &c)| c != 0) else {
            return write!(f, "0");
        };
        let term = Term::new(k, coefficient);
        write!(f, "{}{term}", leading_sign(coefficient))?;
        for (k, &coefficient) in coefficients {
            if coefficient != 0 {
                let term = Term::new(k, coefficient);
                write!(f, "{}{term}", joining_sign(coefficient))?;
            }
        }
        Ok(())
    }
}

/// A line or a form: its name, its number, its sum, and what a line's sum equals.
#[derive(Clone, Copy)]
struct Row<'a> {
    name: &'static str,
    number: usize,
    sum: Sum<'a>,
    right: Option<i32>,
}

impl<'a> Row<'a> {
    /// Row `i`, counted from 0: the first `unknowns` of its numbers are coefficients, and one more is a right side.
    fn new(name: &'static str, i: usize, numbers: &'a [i32], unknowns: usize) -> Row<'a>
        requires place { i + 1 < 2 ^ 64 }
        requires wide { unknowns ≤ length numbers.now }
        ensures name { result.name.now ≡ name.now }
        ensures number { result.number ≡ i + 1 }
        ensures sum { result.sum.0.now ≡ take unknowns numbers.now }
        ensures right { result.right ≡ slice_get numbers.now unknowns }
    {
        let (coefficients, right) = numbers.split_at(unknowns);
        Row {
            name,
            number: i + 1,
            sum: Sum(coefficients),
            right: right.first().copied(),
        }
    }
}

impl fmt::Display for Row<'_> {
    ghost output = { λ r. Some (row_text r.name.now r.number r.sum.0.now r.right) };

    fn fmt<W: fmt::Write>(&self, f: &mut fmt::Formatter<W>) -> fmt::Result {
        let Row {
            name,
            number,
            sum,
            right,
        } = *self;
        write!(f, "{name} {number}: {sum}")?;
        match right {
            Some(right) => writeln!(f, " = {right}"),
            None => writeln!(f),
        }
    }
}

/// Writes rows under their name, numbered from 1. The first `unknowns` numbers of each are coefficients, and a line has one
/// more, its right side.
fn write_rows<W: fmt::Write>(
    f: &mut fmt::Formatter<W>,
    name: &'static str,
    unknowns: usize,
    rows: ChunksExact<'_, i32>,
) -> fmt::Result
    requires some { 0 < chunks_exact_size rows }
    requires wide { unknowns ≤ chunks_exact_size rows }
    ensures { WritesOnOk W.write_str_gives f.old result (rows_text name.now unknowns (chunks_exact_size rows.entry) (chunks_exact_rest rows.entry)) f.new }
{
    for (i, row) in rows.enumerate() {
        write!(f, "{}", Row::new(name, i, row, unknowns))?;
    }
    Ok(())
}

/// The first line of a listing: the mark and the counts.
#[derive(Clone, Copy)]
struct Header<'a>(&'a Sheet);

impl fmt::Display for Header<'_> {
    ghost output = { λ h. Some (header_text (says h.0.now)) };

    fn fmt<W: fmt::Write>(&self, f: &mut fmt::Formatter<W>) -> fmt::Result {
        let mark = self.0.mark();
        let Counts {
            unknowns,
            lines,
            forms,
        } = self.0.counts();
        writeln!(f, "{mark} {unknowns} {lines} {forms}")
    }
}

/// The lines of a sheet, each as an equation.
#[derive(Clone, Copy)]
struct Lines<'a>(&'a Sheet);

impl fmt::Display for Lines<'_> {
    ghost output = { λ l. Some (lines_text (says l.0.now)) };

    fn fmt<W: fmt::Write>(&self, f: &mut fmt::Formatter<W>) -> fmt::Result {
        let sheet = self.0;
        write_rows(f, "line", sheet.counts().unknowns, sheet.lines())
    }
}

/// The forms of a sheet, each as a sum.
#[derive(Clone, Copy)]
struct Forms<'a>(&'a Sheet);

impl fmt::Display for Forms<'_> {
    ghost output = { λ f. Some (forms_text (says f.0.now)) };

    fn fmt<W: fmt::Write>(&self, f: &mut fmt::Formatter<W>) -> fmt::Result {
        let sheet = self.0;
        write_rows(f, "form", sheet.counts().unknowns, sheet.forms())
    }
}

/// The listing of a sheet.
#[derive(Clone, Copy)]
struct Listing<'a>(&'a Sheet);

impl fmt::Display for Listing<'_> {
    ghost output = { λ l. Some (sheet_text (says l.0.now)) };

    fn fmt<W: fmt::Write>(&self, f: &mut fmt::Formatter<W>) -> fmt::Result {
        let sheet = self.0;
        write!(f, "{}", Header(sheet))?;
        write!(f, "{}", Lines(sheet))?;
        write!(f, "{}", Forms(sheet))
    }
}

/// What is said of bytes that are no sheet.
#[derive(Clone, Copy)]
struct Refused(Refusal);

impl fmt::Display for Refused {
    ghost output = { λ r. Some (refusal_text r.0) };

    fn fmt<W: fmt::Write>(&self, f: &mut fmt::Formatter<W>) -> fmt::Result {
        let number = self.0.number();
        let byte = self.0.byte().unwrap_or(0);
        writeln!(f, "refused {number} byte {byte}")
    }
}

/// The listing of the sheet that some bytes are, or why they are none.
pub fn list(heap: Global, bytes: &[u8]) -> Result<String, AllocError>
    ensures { IfOk result (λ s. string_bytes s ≡ listing bytes.now) }
{
    match read(bytes) {
        Ok(sheet) => Listing(&sheet).to_string(heap),
        Err(refusal) => Refused(refusal).to_string(heap),
    }
}
