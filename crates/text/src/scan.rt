// Scanners over the bytes of a text. Each takes the bytes and a place in them: a struct of both would be put together at each call and taken apart in
// each body, and be no plainer.
ghost use Rattle.std.specs.Prelude.{◌≡◌, ◌+◌, ◌<◌, ◌≤◌, true, false, length, drop, ◌≢◌, slice_index};
ghost use Rattle.std.specs.List.{prefix_len};
ghost use Rattle.syntax.specs.Bytes.{white, unescaped, gap};
ghost use Rattle.text.specs.Scans.{Numbers, Words, Strings, Names, Colons};

use crate::bytes::{closes, is_unescaped, is_white, may_end, next_digits, next_letters};
use crate::fault;
use crate::part::Part;
use syntax::{Cause, Digits, Fault, Kind, Letters};

// The bytes from `at` on, or none past the end.
#[tactic(auto, using(std::proofs::lemmas::List::drop_all))]
fn from(s: &[u8], at: usize) -> &[u8]
    ensures { result.now ≡ drop at s.now }
{
    s.get(at..).unwrap_or_default()
}

// How many bytes of white space a text begins with.
fn whites(rest: &[u8]) -> usize
    ensures is { result ≡ prefix_len white rest.now }
    ensures within { result ≤ length rest.now }
{
    rest.iter().take_while(|b| is_white(**b)).count()
}

// How many bytes that stand for themselves the rest of a string begins with.
fn plain_bytes(rest: &[u8]) -> usize
    ensures is { result ≡ prefix_len unescaped rest.now }
    ensures within { result ≤ length rest.now }
{
    rest.iter().take_while(|b| is_unescaped(**b)).count()
}

/// The first place from `at` on that has no white space.
pub fn skip(s: &[u8], at: usize) -> usize
    ensures is { result ≡ gap s.now at }
    ensures from { at ≤ result }
    ensures within { at ≤ length s.now → result ≤ length s.now }
    ensures stops { result < length s.now → white (slice_index s.now result) ≡ false }
{
    // Most often no white space comes, and one byte tells it.
    if at < s.len() && is_white(s[at]) {
        at + whites(from(s, at))
    } else {
        at
    }
}

// Whether `b` stands at `at`.
pub(crate) fn stands(s: &[u8], at: usize, b: u8) -> bool
    ensures taken { result ≡ true → (at < length s.now) × (slice_index s.now at ≡ b) }
    ensures left { result ≡ false → at < length s.now → slice_index s.now at ≢ b }
{
    at < s.len() && s[at] == b
}

// The number whose first byte, at `at`, brought it to `start`.
// The hint: most numbers are short, and a call would be a good part of what they cost.
#[inline(always)]
pub(crate) fn number(s: &[u8], at: usize, start: Digits) -> Result<Part, Fault>
    requires { at < length s.now }
    ensures { Numbers start s.now at result }
{
    let mut so_far = start;
    let mut end = at + 1;
    // The place is counted by hand, since it is where the number ends: an iterator that also gives it is no plainer.
    while end < s.len() {
        let Some(next) = next_digits(so_far, s[end]) else {
            break;
        };
        so_far = next;
        end += 1;
    }
    if !may_end(so_far) {
        return Err(fault(Cause::Malformed, end));
    }
    Ok(Part {
        kind: Kind::Number,
        start: at,
        end,
    })
}

// The literal of a kind whose first byte stands at `at`, and of which `rest` is to come.
pub(crate) fn word(s: &[u8], at: usize, rest: &[u8], kind: Kind) -> Result<Part, Fault>
    requires { at < length s.now }
    ensures { Words rest.now kind s.now at result }
{
    for (n, b) in rest.iter().enumerate() {
        if !stands(s, at + 1 + n, *b) {
            return Err(fault(Cause::Malformed, at + 1 + n));
        }
    }
    Ok(Part {
        kind,
        start: at,
        end: at + 1 + rest.len(),
    })
}

// The place of the quote that closes the string whose first byte past its opening quote stands at `at`.
pub(crate) fn string(s: &[u8], at: usize) -> Result<usize, Fault>
    requires { at ≤ length s.now }
    ensures { Strings s.now at result }
{
    if stands(s, at, b'"') {
        return Ok(at);
    }
    // Most strings have nothing else before their closing quote.
    let mut i = at + plain_bytes(from(s, at));
    let mut spot = Letters::Plain;
    // The place is counted by hand, since it is what is told: an iterator that also gives it is no plainer.
    while i < s.len() {
        let b = s[i];
        if closes(spot, b) {
            return Ok(i);
        }
        let Some(next) = next_letters(spot, b) else {
            break;
        };
        spot = next;
        i += 1;
    }
    Err(fault(Cause::Malformed, i))
}

// The place of the quote that closes the name whose quote has to stand at `at`.
pub(crate) fn name(s: &[u8], at: usize) -> Result<usize, Fault>
    requires { at < length s.now → white (slice_index s.now at) ≡ false }
    ensures { Names s.now at result }
{
    if !stands(s, at, b'"') {
        return Err(fault(Cause::Malformed, at));
    }
    string(s, at + 1)
}

// The place past the colon that has to come at `at` or behind white space.
pub(crate) fn colon(s: &[u8], at: usize) -> Result<usize, Fault>
    ensures { Colons s.now at result }
{
    let i = skip(s, at);
    if !stands(s, i, b':') {
        return Err(fault(Cause::Malformed, i));
    }
    Ok(i + 1)
}
