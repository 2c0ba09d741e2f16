// The parts of a text.
use syntax::Kind;

/// A value in a text.
#[derive(Clone, Copy, Debug, PartialEq, Eq)]
pub struct Part {
    /// What it is.
    pub kind: Kind,
    /// The place of its first byte.
    pub start: usize,
    /// The place past its last byte.
    pub end: usize,
}
