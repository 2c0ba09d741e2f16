// The conditions of an entry.
ghost use Rattle.std.specs.Prelude.{◌≡◌};
ghost use Rattle.std.specs.Option.{option_map};
ghost use Rattle.syntax.specs.Contents.{text};
ghost use Rattle.walk.specs.Told.{members_left};
ghost use Rattle.requirement.specs.Clause.{test_of};
ghost use Rattle.clause.specs.Shown.{above_under, listed_left};

use crate::asked::{Asked, Unstated, string_under};
use crate::listed::{FromValue, Listed};
use crate::parts::{Scalars, Strings};
use requirement::TestWord;
use terms::stated_test;
use walk::{Members, Value};

/// What a condition tests of the property of that name, and the values that it takes.
// no Debug and no comparison: either would go through the bytes of the profile
#[derive(Clone, Copy)]
pub struct Test<'a> {
    pub property: &'a [u8],
    pub word: TestWord,
    pub values: Scalars<'a>,
}

/// A condition: schema names above the resource, a test, and what is asked where these are met.
// no Debug and no comparison: either would go through the bytes of the profile
#[derive(Clone, Copy)]
pub struct Condition<'a> {
    pub under: Option<Strings<'a>>,
    pub test: Option<Test<'a>>,
    pub asks: Asked<'a>,
}

// The schema names above, where they are stated.
fn above(members: Members<'_>) -> Option<Strings<'_>>
    ensures { above_under (members_left members.entry) ≡ option_map (listed_left text) result }
{
    Some(Listed::of(members.get(b"SubordinateToResource")?))
}

impl<'a> Test<'a> {
    ghost use Rattle.clause.specs.Shown.{test_shown};

    // The test, where one is stated; only an operator takes values.
    fn stated(members: Members<'a>) -> Option<Test<'a>>
        ensures { test_of (members_left members.entry) ≡ option_map test_shown result }
    {
        let property = string_under(members, b"CompareProperty")?;
        let word = stated_test(members)?;
        let values = match word {
            TestWord::By(_) => Listed::under(members, b"CompareValues"),
            TestWord::Present | TestWord::Absent => Listed::none(),
        };
        Some(Test {
            property,
            word,
            values,
        })
    }
}

impl<'a> FromValue<'a> for Condition<'a> {
    ghost use Rattle.requirement.specs.Clause as r;
    ghost use Rattle.clause.specs.Shown.{condition_read, condition_shown};

    ghost Meaning = { r.Condition };

    ghost read = { condition_read };

    ghost shown = { condition_shown };

    fn from_value(value: Value<'a>) -> Option<Condition<'a>> {
        let members = value.members_or_none();
        Some(Condition {
            under: above(members),
            test: Test::stated(members),
            asks: Asked::stated(members, Unstated::CONDITION),
        })
    }
}
