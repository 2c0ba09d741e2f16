// A whole text, and the value at a place.
ghost use Rattle.std.specs.Prelude.{◌≡◌, ◌*◌, ◌≤◌, length};
ghost use Rattle.syntax.specs.Laws.{Accepts, OneValue, Tells};
ghost use Rattle.syntax.specs.Reading.{reading, value_at};
ghost use Rattle.syntax.specs.Rows.{Rows};
ghost use Rattle.text.specs.Part.{part_read, part_at};

use crate::fault;
use crate::nest::value_here;
use crate::open_names::Unchecked;
use crate::part::Part;
use crate::scan::skip;
use arrayvec::ArrayVec;
use names::Span;
use syntax::{Cause, Fault};

/// Reads a text of at most 1,048,576 bytes, which is a value with nothing but white space around it. Brackets open at most sixteen deep,
/// and no object has a name twice.
// A name takes four bytes of a text at least, so that three sizes of table serve; memory of its own the library has none.
pub fn read(text: &[u8]) -> Result<Part, Fault>
    ensures is { result ≡ part_read (reading text.now) }
    ensures accepts { Accepts }
    ensures one { OneValue }
    ensures tells { Tells }
    ensures rows { Rows }
{
    match text.len() {
        0..=4_096 => read_by::<1_024>(text),
        4_097..=65_536 => read_by::<16_384>(text),
        65_537..=1_048_576 => read_by::<262_144>(text),
        _ => Err(fault(Cause::TooLong, 0)),
    }
}

// The same with a table of so many rows.
fn read_by<const ROWS: usize>(text: &[u8]) -> Result<Part, Fault>
    requires small { ROWS ≤ 262144 }
    requires fits { length text.now ≤ 4 * ROWS }
    requires short { length text.now ≤ 1048576 }
    ensures { result ≡ part_read (reading text.now) }
{
    let mut names = ArrayVec::<Span, ROWS>::new();
    let part = value_here(text, skip(text, 0), 16, &mut names)?;
    let end = skip(text, part.end);
    if end < text.len() {
        return Err(fault(Cause::Malformed, end));
    }
    Ok(part)
}

/// The value that comes at a place of any bytes, behind white space, if one does in which brackets open at most sixteen deep.
/// Names may be repeated in it.
pub fn value(text: &[u8], at: usize) -> Option<Part>
    ensures { result ≡ part_at (value_at text.now at) }
{
    value_here(text, skip(text, at), 16, &mut Unchecked).ok()
}
