// How a refusal is told: three numbers, whatever was refused.
#![tactic(auto)]

ghost use Rattle.std.specs.Prelude.{Some};
ghost use Rattle.refused.specs.Line.{line};

use std::fmt;

/// A refusal as it is told: its number, the number of the cause of a text's fault inside it, and its place; 0 where it has none.
// Numbers, since this is what is told; each type that is refused says by `From` what it is told by.
#[derive(Clone, Copy, Debug, PartialEq, Eq)]
pub struct Refused {
    pub number: u8,
    pub cause: u8,
    pub place: usize,
}

/// The line of a refusal, which begins with an `R`.
impl fmt::Display for Refused {
    ghost output = { λ r. Some (line r) };

    fn fmt<W: fmt::Write>(&self, f: &mut fmt::Formatter<W>) -> fmt::Result {
        let Refused {
            number,
            cause,
            place,
        } = *self;
        write!(f, "R {number} {cause} {place}")
    }
}
