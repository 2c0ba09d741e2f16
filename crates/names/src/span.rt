// Two places.

/// Two places of a text, from one to the other: of a name those of its opening and of its closing quote.
#[derive(Clone, Copy, Debug, Default, PartialEq, Eq)]
pub struct Span {
    pub start: u32,
    pub end: u32,
}
