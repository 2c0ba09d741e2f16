// What an entry, or a condition, asks of a property.
ghost use Rattle.std.specs.Prelude.{◌≡◌};
ghost use Rattle.std.specs.Option.{option_map, option_copied};
ghost use Rattle.syntax.specs.Walking.{find as find_in};
ghost use Rattle.walk.specs.Told.{members_left};
ghost use Rattle.requirement.specs.Words.{◌of◌, lookup, level_words, count as count_in};
ghost use Rattle.requirement.specs.Clause.{get, level_of, comparison_of, asked_of};
ghost use Rattle.clause.specs.Shown.{text_in};

use crate::listed::Listed;
use crate::parts::Scalars;
use grade::{Grade, Level};
use requirement::Operator;
use terms::{LevelWords, Words, stated_operator};
use walk::Members;

/// An operator, and the values that it takes.
// no Debug and no comparison: either would go through the bytes of the profile
#[derive(Clone, Copy)]
pub struct Comparison<'a> {
    pub operator: Operator,
    pub values: Scalars<'a>,
}

/// What is asked: the grades for what is absent and for what is unmet, the least count, and a comparison.
// no Debug and no comparison: either would go through the bytes of the profile
#[derive(Clone, Copy)]
pub struct Asked<'a> {
    pub level: Level,
    pub count: usize,
    pub comparison: Option<Comparison<'a>>,
}

// The level and the count that hold where none are stated.
#[derive(Clone, Copy)]
pub(crate) struct Unstated {
    level: Level,
    count: usize,
}

impl Unstated {
    // An entry is mandatory and asks for one.
    pub(crate) const ENTRY: Unstated = Unstated {
        level: MANDATORY,
        count: 1,
    };

    // A condition asks for nothing.
    pub(crate) const CONDITION: Unstated = Unstated {
        level: (Grade::Clear, Grade::Clear),
        count: 0,
    };
}

// The level that holds where none is stated.
pub(crate) const MANDATORY: Level = (Grade::Hold, Grade::Hold);

// The string under a name.
pub(crate) fn string_under<'a>(members: Members<'a>, name: &[u8]) -> Option<&'a [u8]>
    ensures { text_in (find_in name.now (members_left members.entry)) ≡ option_copied result }
{
    members.get(name)?.as_string()
}

// The level that `ReadRequirement` states.
fn stated_level(members: Members) -> Option<Level>
    ensures { result ≡ lookup level_words of text_in (get "ReadRequirement" (members_left members.entry)) }
{
    LevelWords::meaning(string_under(members, b"ReadRequirement")?)
}

// The level that is stated, or that which holds where none is.
pub(crate) fn level(members: Members, unstated: Level) -> Level
    ensures { result ≡ level_of unstated (members_left members.entry) }
{
    stated_level(members).unwrap_or(unstated)
}

// The least count that `MinCount` states.
fn stated_count(members: Members) -> Option<usize>
    ensures { result ≡ count_in of get "MinCount" (members_left members.entry) }
{
    terms::count(members.get(b"MinCount")?)
}

impl<'a> Comparison<'a> {
    ghost use Rattle.clause.specs.Shown.{comparison_shown};

    // The comparison with `Values`, by `AnyOf` where no other operator is stated.
    fn stated(members: Members<'a>) -> Option<Comparison<'a>>
        ensures { comparison_of (members_left members.entry) ≡ option_map comparison_shown result }
    {
        let values = members.get(b"Values")?;
        Some(Comparison {
            operator: stated_operator(members).unwrap_or(Operator::AnyOf),
            values: Listed::of(values),
        })
    }
}

impl<'a> Asked<'a> {
    ghost use Rattle.clause.specs.Shown.{asked_shown};

    // What these members ask, with what holds where nothing is stated.
    pub(crate) fn stated(members: Members<'a>, unstated: Unstated) -> Asked<'a>
        ensures { asked_of unstated.level unstated.count (members_left members.entry) ≡ asked_shown result }
    {
        Asked {
            level: level(members, unstated.level),
            count: stated_count(members).unwrap_or(unstated.count),
            comparison: Comparison::stated(members),
        }
    }
}
