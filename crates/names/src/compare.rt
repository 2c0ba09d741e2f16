// The bytes of names, and how they compare.
ghost use Rattle.std.specs.Prelude.{◌≡◌, ◌+◌, ◌≤◌, length};
ghost use Rattle.names.specs.Repeats.{bytes_of};
ghost use Rattle.names.specs.Order.{span_cmp};
ghost use Rattle.syntax.specs.Bytes.{same as same_bytes};

use crate::Span;
use std::cmp::Ordering;

// The bytes between the quotes of a name, or none where the places are out of order or pass the text.
#[tactic(auto, using(std::proofs::lemmas::Bool::Decides::nat_tests), unfolding(crate::specs::Repeats::bytes_of))]
pub(crate) fn bytes(text: &[u8], name: Span) -> &[u8]
    ensures { result.now ≡ bytes_of text.now name }
{
    text.get(name.start as usize + 1..name.end as usize)
        .unwrap_or_default()
}

/// Whether two names or strings say the same, by the bytes between their quotes. Every test of the kind goes through it.
pub fn same(a: &[u8], b: &[u8]) -> bool
    ensures { result ≡ same_bytes a.now b.now }
{
    a == b
}

// By the bytes between the quotes, then by the opening quotes, then by the closing ones.
pub(crate) fn order(text: &[u8], a: Span, b: Span) -> Ordering
    ensures { result ≡ span_cmp text.now a b }
{
    bytes(text, a)
        .cmp(bytes(text, b))
        .then_with(|| (a.start, a.end).cmp(&(b.start, b.end)))
}

// The eight bytes from a place on as one number, the first byte the lowest.
fn eight(text: &[u8], at: usize) -> u64
    requires { at + 8 ≤ length text.now }
{
    u64::from_le_bytes([
        text[at],
        text[at + 1],
        text[at + 2],
        text[at + 3],
        text[at + 4],
        text[at + 5],
        text[at + 6],
        text[at + 7],
    ])
}

// Whether a comes before b, where eight bytes of both from the same place on tell it.
#[inline(always)]
fn eight_tell(text: &[u8], a: Span, b: Span, past: usize) -> Option<bool>
    requires { past ≤ 8 }
{
    let (i, j) = (a.start as usize + 1 + past, b.start as usize + 1 + past);
    if i + 8 <= text.len() && j + 8 <= text.len() {
        let (x, y) = (eight(text, i), eight(text, j));
        let alike = ((x ^ y).trailing_zeros() / 8) as usize;
        if alike < 8 && i + alike < a.end as usize && j + alike < b.end as usize {
            return Some(x.swap_bytes() < y.swap_bytes());
        }
    }
    None
}

// Whether a comes before b in this order, by their first sixteen bytes where these tell. No proof uses the answer: only speed hangs on it.
#[inline(always)]
pub(crate) fn ahead(text: &[u8], a: Span, b: Span) -> bool {
    if let Some(told) = eight_tell(text, a, b, 0) {
        return told;
    }
    if let Some(told) = eight_tell(text, a, b, 8) {
        return told;
    }
    order(text, a, b).is_lt()
}
