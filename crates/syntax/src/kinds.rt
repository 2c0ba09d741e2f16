ghost use Rattle.std.specs.Prelude.{◌≡◌};
ghost use Rattle.syntax.specs.Reading.{number};

/// Why bytes are no text.
#[derive(Clone, Copy, Debug, PartialEq, Eq)]
pub enum Cause {
    TooLong = 1,
    Malformed = 2,
    TooDeep = 3,
    RepeatedName = 4,
}

impl Cause {
    /// The number by which a cause is told.
    // a method of the rules' word: what is told is a number, and the clauses name it
    pub fn number(self) -> u8
        ensures { result ≡ number self }
    {
        self as u8
    }
}

/// A cause, and the byte place at which it stands.
#[derive(Clone, Copy, Debug, PartialEq, Eq)]
pub struct Fault {
    pub cause: Cause,
    pub place: usize,
}

/// What stands for itself.
#[derive(Clone, Copy, Debug, PartialEq, Eq)]
pub enum Literal {
    Null,
    False,
    True,
}

/// The kinds of values.
#[derive(Clone, Copy, Debug, PartialEq, Eq)]
pub enum Kind {
    Null,
    False,
    True,
    Number,
    String,
    Array,
    Object,
}

/// How far a number has come: past its minus, its leading zero, the digits before the point, the point, the digits behind
/// it, the e, the e's sign, the digits behind that.
#[derive(Clone, Copy, Debug, PartialEq, Eq)]
pub enum Digits {
    Minus,
    Zero,
    Whole,
    Point,
    Fraction,
    Mark,
    Sign,
    Power,
}

/// Where a string stands: between two characters, past a backslash, or with so many hexadecimal digits to come.
#[derive(Clone, Copy, Debug, PartialEq, Eq)]
pub enum Letters {
    Plain,
    Escape,
    Four,
    Three,
    Two,
    One,
}
