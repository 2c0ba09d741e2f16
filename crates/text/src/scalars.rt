// Strings, numbers and literals.
ghost use Rattle.std.specs.Prelude.{◌≡◌, ℕ, ◌<◌, false, length, ◌≢◌, slice_index};
ghost use Rattle.syntax.specs.Bytes.{white};
ghost use Rattle.syntax.specs.Machine.{Rules, live, value as value_mode};
ghost use Rattle.text.specs.Scans.{Reads};

use crate::fault;
use crate::part::Part;
use crate::scan::{number, string, word};
use syntax::{Cause, Digits, Fault, Kind};

// The string whose opening quote stands at `at`.
fn quoted(s: &[u8], at: usize) -> Result<Part, Fault>
    requires within { at < length s.now }
    requires quote { slice_index s.now at ≡ 34 }
    ensures { (rules : Rules) (depth : ℕ) → Reads rules (live value_mode) depth s.now at result }
{
    let quote = string(s, at + 1)?;
    Ok(Part {
        kind: Kind::String,
        start: at,
        end: quote + 1,
    })
}

// The string, number or literal whose first byte stands at `at`.
// The hint: it has two callers, one for each kind of open names, and would be a call for every value.
#[inline(always)]
pub(crate) fn scalar(s: &[u8], at: usize) -> Result<Part, Fault>
    requires within { at < length s.now }
    requires solid { white (slice_index s.now at) ≡ false }
    requires bracket { slice_index s.now at ≢ 91 }
    requires brace { slice_index s.now at ≢ 123 }
    ensures { (rules : Rules) (depth : ℕ) → Reads rules (live value_mode) depth s.now at result }
{
    match s[at] {
        b'"' => quoted(s, at),
        b'-' => number(s, at, Digits::Minus),
        b'0' => number(s, at, Digits::Zero),
        b'1'..=b'9' => number(s, at, Digits::Whole),
        b'n' => word(s, at, b"ull", Kind::Null),
        b't' => word(s, at, b"rue", Kind::True),
        b'f' => word(s, at, b"alse", Kind::False),
        _ => Err(fault(Cause::Malformed, at)),
    }
}
