// What stands under a name, among the members of an entry, of a condition or of a profile.
ghost use Rattle.std.specs.Prelude.{◌≡◌};
ghost use Rattle.std.specs.Option.{option_map};
ghost use Rattle.syntax.specs.Walking.{find};
ghost use Rattle.walk.specs.Told.{spelled, members_left};
ghost use Rattle.requirement.specs.Clause.{members_in, operator_of, test_word_of, properties as properties_of};
ghost use Rattle.terms.specs.Stated.{version_told, version_stated, schemas_of};

use crate::values::version_at;
use crate::version::Version;
use crate::words::{OperatorWords, TestWords, Words};
use requirement::{Operator, TestWord};
use walk::{Members, Value};

/// The operator of a comparison, where one is stated.
pub fn stated_operator(members: Members) -> Option<Operator>
    ensures { result ≡ operator_of (members_left members.entry) }
{
    OperatorWords::meaning(members.get(b"Comparison")?.as_string()?)
}

/// The word of a condition's test, where one is stated.
pub fn stated_test(members: Members) -> Option<TestWord>
    ensures { result ≡ test_word_of (members_left members.entry) }
{
    TestWords::meaning(members.get(b"CompareType")?.as_string()?)
}

/// The least version, where one is stated among the members of a schema entry.
pub fn stated_version(members: Members) -> Option<Version>
    ensures { result ≡ option_map version_told (version_stated (members_left members.entry)) }
{
    version_at(members.get(b"MinVersion")?)
}

// The members of the object under a name; of anything else none.
fn members_under<'a>(members: Members<'a>, name: &[u8]) -> Members<'a>
    ensures { members_left result ≡ members_in (find name.now (members_left members.entry)) }
{
    match members.get(name) {
        Some(value) => value.members_or_none(),
        None => Members::none(),
    }
}

/// The properties of a schema entry, or those inside a property entry.
pub fn properties(members: Members<'_>) -> Members<'_>
    ensures { members_left result ≡ properties_of (members_left members.entry) }
{
    members_under(members, b"PropertyRequirements")
}

/// The schema entries of a profile.
pub fn schemas(profile: Value<'_>) -> Members<'_>
    ensures { members_left result ≡ schemas_of (spelled profile.entry) }
{
    members_under(profile.members_or_none(), b"Resources")
}
