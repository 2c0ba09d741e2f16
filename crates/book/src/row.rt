use names::Span;

/// Where the path and the body of a pair stand, each up to the place past its last byte.
#[derive(Clone, Copy, Debug, Default, PartialEq, Eq)]
pub struct Row {
    pub path: Span,
    pub body: Span,
}
