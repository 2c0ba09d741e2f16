// Conditions.
ghost use Rattle.std.specs.Prelude.{◌≡◌};
ghost use Rattle.requirement.specs.Check.{presence as presence_of, comparing as comparing_of, test_fits, condition_fits, condition_member, condition as condition_checked, array as array_of};
ghost use Rattle.walk.specs.Told.{spelled, members_left};

use crate::comparison::{common_part, comparison_fits, fits};
use crate::lists::{names, values};
use crate::rules::{MemberRule, ObjectRule, Rule, array, object};
use crate::single::{Check, property, test};
use requirement::{ConditionMember, Operator, ProfileFault, TestWord};
use terms::{ConditionNames, Words, stated_test};
use walk::{Member, Members, Value};

// Whether a test only asks if its property is there.
fn presence(word: Option<TestWord>) -> bool
    ensures { result ≡ presence_of word }
{
    matches!(word, Some(TestWord::Present | TestWord::Absent))
}

// The operator of a test that compares.
fn comparing(word: Option<TestWord>) -> Option<Operator>
    ensures { result ≡ comparing_of word }
{
    match word {
        Some(TestWord::By(operator)) => Some(operator),
        _ => None,
    }
}

// Whether the operator of a condition's test has values, and takes them.
fn test_fits(members: Members) -> bool
    ensures { result ≡ test_fits (members_left members.entry) }
{
    fits(
        comparing(stated_test(members)),
        members.get(b"CompareValues"),
    )
}

// A condition has a test of a property, or asks for a resource above, or both; `CompareProperty` and `CompareType` stand together, and no
// `CompareValues` without `CompareType`; operators have values that they take.
fn condition_fits(members: Members) -> bool
    ensures { result ≡ condition_fits (members_left members.entry) }
{
    match (members.get(b"CompareProperty"), members.get(b"CompareType")) {
        (Some(_), Some(_)) => test_fits(members) && comparison_fits(members),
        (None, None) => {
            members.get(b"SubordinateToResource").is_some()
                && members.get(b"CompareValues").is_none()
                && comparison_fits(members)
        }
        _ => false,
    }
}

// The members of a condition; `CompareValues` may be skipped.
#[derive(Clone, Copy)]
struct ConditionMembers {
    // whether `CompareValues` is passed over; a flag with no value beside it
    skip: bool,
}

impl MemberRule for ConditionMembers {
    ghost member_checked = { λ r. condition_member r.skip };

    fn check_member(&self, member: Member) -> Check {
        let value = member.value;
        match ConditionNames::meaning(member.name.bytes) {
            Some(ConditionMember::SubordinateToResource) => names(value),
            Some(ConditionMember::CompareProperty) => property(value),
            Some(ConditionMember::CompareType) => test(value),
            Some(ConditionMember::CompareValues) if self.skip => Ok(()),
            Some(ConditionMember::CompareValues) => values(value),
            Some(ConditionMember::Common(common)) => common_part(common, value),
            None => Err(ProfileFault::Unnamed(member.name.place)),
        }
    }
}

impl ObjectRule for ConditionMembers {
    ghost whole_fits = { λ _. condition_fits };

    fn fits(&self, members: Members) -> bool {
        condition_fits(members)
    }
}

/// A condition.
pub fn condition(value: Value) -> Check
    ensures { result ≡ condition_checked (spelled value.entry) }
{
    let skip = presence(stated_test(value.members_or_none()));
    object(&ConditionMembers { skip }, value)
}

#[derive(Clone, Copy)]
struct ConditionRule;

impl Rule for ConditionRule {
    ghost checked = { λ _. condition_checked };

    fn check(&self, value: Value) -> Check {
        condition(value)
    }
}

/// At most sixteen conditions.
pub fn conditions(value: Value) -> Check
    ensures { result ≡ array_of 0 16 condition_checked (spelled value.entry) }
{
    array(&ConditionRule, 0, 16, value)
}
