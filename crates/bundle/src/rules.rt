//! The rules of a bundle, and what a check refuses.
ghost use Rattle.std.specs.Prelude.{◌≡◌};
ghost use Rattle.bundle.specs.Rules.{number, telling};

use refused::Refused;

/// What a bundle is refused for.
#[derive(Clone, Copy, Debug, PartialEq, Eq)]
pub enum Rule {
    /// Over 16,777,216 bytes.
    TooLong = 1,
    /// Under seven bytes, or another mark or version.
    Head = 2,
    /// A count over 1,024.
    TooMany = 3,
    /// The bytes end inside a record.
    CutShort = 4,
    /// A path that breaks the rules of paths.
    UnlawfulPath = 5,
    /// An earlier record has the path.
    RepeatedPath = 6,
    /// A body over 1,048,576 bytes.
    LongBody = 7,
    /// Bytes behind the last record.
    LeftOver = 8,
}

impl Rule {
    /// The number by which the rule is told.
    // a method of the rules' word: what is told is a number, and the clauses name it
    pub fn number(self) -> u8
        ensures { result ≡ number self }
    {
        self as u8
    }
}

/// Why bytes are not a bundle.
#[derive(Clone, Copy, Debug, PartialEq, Eq)]
pub struct Refusal {
    /// The broken rule.
    pub rule: Rule,
    /// The place of the record that breaks it, or of the first byte left over, or 0.
    pub place: usize,
}

impl From<Refusal> for Refused {
    ghost from_gives = { λ e r. r ≡ telling e };

    fn from(refusal: Refusal) -> Refused {
        Refused {
            number: refusal.rule.number(),
            cause: 0,
            place: refusal.place,
        }
    }
}
