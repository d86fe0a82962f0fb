// Reads a sheet from any bytes at all.
ghost use Rattle.std.specs.Prelude.{◌≡◌, IfOk, Err, MatchResult};
ghost use Rattle.sheet.specs.Checks.{judged};
ghost use Rattle.sheet.specs.Reading.{sheet_of, counts_of, layout_checks, header_checks};
ghost use Rattle.sheet.specs.Steps.{HeaderOf};
ghost use Rattle.sheet.specs.Typed.{says, content_read};
ghost use Rattle.sheet.specs.Writing.{WritesAs};

use crate::format::{
    Counts, FORMS_FIELD, FORMS_START_FIELD, HEADER_LENGTH, LINES_FIELD, LINES_START,
    LINES_START_FIELD, Mark, TOTAL_FIELD, UNKNOWNS_FIELD,
};
use crate::refusal::Refusal;
use crate::shape::Shape;
use crate::typed::Sheet;
use crate::word::field;

/// The counts that a header gives.
fn read_counts(header: &[u8; HEADER_LENGTH]) -> Counts
    ensures { result ≡ counts_of header.now }
{
    Counts {
        unknowns: field(header, UNKNOWNS_FIELD),
        lines: field(header, LINES_FIELD),
        forms: field(header, FORMS_FIELD),
    }
}

/// Whether the offsets and the total are what the counts make them, and the sheet has `size` bytes.
fn check_layout(header: &[u8; HEADER_LENGTH], shape: Shape, size: usize) -> Result<(), Refusal>
    ensures { result ≡ judged (layout_checks header.now shape.counts size) }
{
    if field(header, LINES_START_FIELD) != LINES_START {
        return Err(Refusal::Layout {
            byte: LINES_START_FIELD,
        });
    }
    if field(header, FORMS_START_FIELD) != shape.forms().start {
        return Err(Refusal::Layout {
            byte: FORMS_START_FIELD,
        });
    }
    let total = field(header, TOTAL_FIELD);
    if total != shape.total_length() || total != size {
        return Err(Refusal::Layout { byte: TOTAL_FIELD });
    }
    Ok(())
}

/// What a header tells.
#[derive(Clone, Copy)]
struct Header {
    mark: Mark,
    shape: Shape,
}

/// Reads the header, up to the first thing that is wrong with it.
fn read_header(bytes: &[u8]) -> Result<Header, Refusal>
    ensures { MatchResult result (λ h. HeaderOf bytes.now h.mark h.shape.counts) (λ e. judged (header_checks bytes.now) ≡ Err e) }
{
    let Some(header) = bytes.first_chunk::<HEADER_LENGTH>() else {
        return Err(Refusal::Short {
            length: bytes.len(),
        });
    };
    let Some(mark) = Mark::of(&header[..UNKNOWNS_FIELD]) else {
        return Err(Refusal::NoMark);
    };
    let shape = Shape::try_from(read_counts(header))?;
    check_layout(header, shape, bytes.len())?;
    Ok(Header { mark, shape })
}

/// Reads a sheet, or says why the bytes are none.
pub fn read(bytes: &[u8]) -> Result<Sheet, Refusal>
    ensures value { content_read result ≡ sheet_of bytes.now }
    ensures back { IfOk result (λ s. WritesAs (says s) bytes.now) }
{
    let Header { mark, shape } = read_header(bytes)?;
    let lines = shape.lines().read(bytes)?;
    let forms = shape.forms().read(bytes)?;
    Ok(Sheet {
        mark,
        shape,
        lines,
        forms,
    })
}
