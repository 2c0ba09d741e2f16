// Arrays of values by themselves.
ghost use Rattle.std.specs.Prelude.{◌≡◌};
ghost use Rattle.syntax.specs.Contents.{text as text_of};
ghost use Rattle.requirement.specs.Words.{scalar};
ghost use Rattle.requirement.specs.Check.{array as array_of, want, values as values_checked};
ghost use Rattle.walk.specs.Told.{spelled};

use crate::rules::{Rule, array};
use crate::single::{Check, sure, unlawful};
use terms::is_scalar;
use walk::Value;

// A string, whatever its letters.
#[derive(Clone, Copy)]
struct StringRule;

impl Rule for StringRule {
    ghost checked = { λ _. want text_of };

    fn check(&self, value: Value) -> Check {
        sure(value.as_string().is_some(), unlawful(value))
    }
}

// What can be compared.
#[derive(Clone, Copy)]
struct ScalarRule;

impl Rule for ScalarRule {
    ghost checked = { λ _. want scalar };

    fn check(&self, value: Value) -> Check {
        sure(is_scalar(value), unlawful(value))
    }
}

/// The names of schemas above a resource: one to eight strings.
pub fn names(value: Value) -> Check
    ensures { result ≡ array_of 1 8 (want text_of) (spelled value.entry) }
{
    array(&StringRule, 1, 8, value)
}

/// Values to compare with: one to sixteen scalars.
pub fn values(value: Value) -> Check
    ensures { result ≡ values_checked (spelled value.entry) }
{
    array(&ScalarRule, 1, 16, value)
}
