// The member names of each kind of object, by the tables of their own names and of those that they have in common.
ghost use Rattle.std.specs.Prelude.{◌≡◌};
ghost use Rattle.requirement.specs.Words.{lookup};
ghost use Rattle.requirement.specs.Check.{common_names, own_or_common, condition_name, nested_name, entry_name, schema_names, property_name};
ghost use Rattle.requirement.specs.declared.words.CommonMember.{CommonMember as Common};
ghost use Rattle.requirement.specs.declared.words.ConditionMember.TheVariants as condition;
ghost use Rattle.requirement.specs.declared.words.EntryMember.TheVariants as entry;
ghost use Rattle.terms.specs.Rows.{rows};

use crate::words::{Words, look_up};
use requirement::{CommonMember, ConditionMember, EntryMember, SchemaMember};

static COMMON_NAMES: [(&[u8], CommonMember); 7] = [
    (b"ReadRequirement", CommonMember::ReadRequirement),
    (b"MinCount", CommonMember::MinCount),
    (b"Comparison", CommonMember::Comparison),
    (b"Values", CommonMember::Values),
    (b"Purpose", CommonMember::Skipped),
    (b"WriteRequirement", CommonMember::Skipped),
    (b"MinSupportValues", CommonMember::Skipped),
];

static OWN_CONDITION_NAMES: [(&[u8], ConditionMember); 4] = [
    (
        b"SubordinateToResource",
        ConditionMember::SubordinateToResource,
    ),
    (b"CompareProperty", ConditionMember::CompareProperty),
    (b"CompareType", ConditionMember::CompareType),
    (b"CompareValues", ConditionMember::CompareValues),
];

static OWN_NESTED_NAMES: [(&[u8], EntryMember); 3] = [
    (b"ReplacedByProperty", EntryMember::ReplacedByProperty),
    (b"ReplacesProperty", EntryMember::ReplacesProperty),
    (
        b"ConditionalRequirements",
        EntryMember::ConditionalRequirements,
    ),
];

// A property entry of the first level has one member more.
static FIRST_LEVEL_NAMES: [(&[u8], EntryMember); 1] = [(
    b"PropertyRequirements",
    EntryMember::PropertyRequirements,
)];

static SCHEMA_NAMES: [(&[u8], SchemaMember); 8] = [
    (b"MinVersion", SchemaMember::MinVersion),
    (b"ReadRequirement", SchemaMember::ReadRequirement),
    (b"PropertyRequirements", SchemaMember::PropertyRequirements),
    (b"Repository", SchemaMember::Skipped),
    (b"Purpose", SchemaMember::Skipped),
    (b"CreateResource", SchemaMember::Skipped),
    (b"DeleteResource", SchemaMember::Skipped),
    (b"UpdateResource", SchemaMember::Skipped),
];

// Members among which the common ones stand. No `From`: that says what it gives by a relation, and the clause below names a function.
trait WithCommon: Copy {
    ghost as_member: { Common → Self };

    fn common(member: CommonMember) -> Self
        ensures { result ≡ as_member member };
}

impl WithCommon for ConditionMember {
    ghost as_member = { condition.Common };

    fn common(member: CommonMember) -> ConditionMember {
        ConditionMember::Common(member)
    }
}

impl WithCommon for EntryMember {
    ghost as_member = { entry.Common };

    fn common(member: CommonMember) -> EntryMember {
        EntryMember::Common(member)
    }
}

// What a name stands for by a table of own names, or else by the common ones.
fn own_or_common<M: WithCommon>(own: &[(&[u8], M)], name: &[u8]) -> Option<M>
    ensures { result ≡ own_or_common (rows own.now) M.as_member name.now }
{
    // no `or_else`: a closure that names the function of a type parameter gets no proof
    match look_up(own, name) {
        Some(member) => Some(member),
        None => Some(M::common(look_up(&COMMON_NAMES, name)?)),
    }
}

/// The names of the members that entries and conditions have in common.
pub struct CommonNames;

impl Words for CommonNames {
    type Meaning = CommonMember;

    ghost meaning_of = { lookup common_names };

    fn meaning(name: &[u8]) -> Option<CommonMember> {
        look_up(&COMMON_NAMES, name)
    }
}

/// The names of the members of a condition.
pub struct ConditionNames;

impl Words for ConditionNames {
    type Meaning = ConditionMember;

    ghost meaning_of = { condition_name };

    fn meaning(name: &[u8]) -> Option<ConditionMember> {
        own_or_common(&OWN_CONDITION_NAMES, name)
    }
}

/// The names of the members of a nested property entry.
pub struct NestedNames;

impl Words for NestedNames {
    type Meaning = EntryMember;

    ghost meaning_of = { nested_name };

    fn meaning(name: &[u8]) -> Option<EntryMember> {
        own_or_common(&OWN_NESTED_NAMES, name)
    }
}

/// The names of the members of a property entry of the first level.
pub struct EntryNames;

impl Words for EntryNames {
    type Meaning = EntryMember;

    ghost meaning_of = { entry_name };

    fn meaning(name: &[u8]) -> Option<EntryMember> {
        // no `or_else`: the proof that its answer is the table's did not close
        match look_up(&FIRST_LEVEL_NAMES, name) {
            Some(member) => Some(member),
            None => NestedNames::meaning(name),
        }
    }
}

/// The names of the members of a schema entry.
pub struct SchemaNames;

impl Words for SchemaNames {
    type Meaning = SchemaMember;

    ghost meaning_of = { lookup schema_names };

    fn meaning(name: &[u8]) -> Option<SchemaMember> {
        look_up(&SCHEMA_NAMES, name)
    }
}

/// Whether a property may have this name: it does not begin with a slash.
pub fn property_name(name: &[u8]) -> bool
    ensures { result ≡ property_name name.now }
{
    name.is_empty() || name[0] != b'/'
}
