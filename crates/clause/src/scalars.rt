// Values to compare, and names.
ghost use Rattle.std.specs.Prelude.{◌≡◌};

use crate::listed::FromValue;
use syntax::{Kind, Literal};
use walk::Value;

/// What is compared: a string, a whole number, or null, true or false.
#[derive(Clone, Copy, Debug, PartialEq, Eq)]
pub enum Scalar<'a> {
    Text(&'a [u8]),
    Number(i64),
    Constant(Literal),
}

impl<'a> FromValue<'a> for Scalar<'a> {
    ghost use Rattle.requirement.specs.Words as words;
    ghost use Rattle.clause.specs.Shown.{scalar_shown};

    ghost Meaning = { words.Scalar };

    ghost read = { words.scalar };

    ghost shown = { scalar_shown };

    fn from_value(value: Value<'a>) -> Option<Scalar<'a>> {
        match value.kind() {
            Kind::Null => Some(Scalar::Constant(Literal::Null)),
            Kind::False => Some(Scalar::Constant(Literal::False)),
            Kind::True => Some(Scalar::Constant(Literal::True)),
            Kind::Number => Some(Scalar::Number(value.as_whole()?)),
            Kind::String => Some(Scalar::Text(value.as_string()?)),
            Kind::Array | Kind::Object => None,
        }
    }
}

impl<'a> FromValue<'a> for &'a [u8] {
    ghost use Rattle.std.specs.Prelude.{ℕ, List};
    ghost use Rattle.syntax.specs.Contents.{text};

    ghost Meaning = { List ℕ };

    ghost read = { text };

    ghost shown = { λ name. name.now };

    fn from_value(value: Value<'a>) -> Option<&'a [u8]> {
        value.as_string()
    }
}
