// From one item or member to the next.
ghost use Rattle.std.specs.Prelude.{◌≡◌};
ghost use Rattle.syntax.specs.Walking.{after_comma, byte_is};

use text::skip;

// Whether the byte `b` stands at `i`. The reader's own is told otherwise, as its proofs go by it.
pub(crate) fn is_at(text: &[u8], i: usize, b: u8) -> bool
    ensures { result ≡ byte_is text.now i b }
{
    i < text.len() && text[i] == b
}

// Where the next item or member begins, behind one that ended at `end`.
pub(crate) fn after(text: &[u8], end: usize) -> Option<usize>
    ensures { result ≡ after_comma text.now end }
{
    let i = skip(text, end);
    if is_at(text, i, b',') {
        Some(i + 1)
    } else {
        None
    }
}
