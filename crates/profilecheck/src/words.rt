// What the values of a profile are, by the objects and names under which they stand, and what is accepted as each.
use requirement::{CommonMember, ConditionMember, EntryMember, Operator, SchemaMember, TestWord};
use terms::{ConditionNames, EntryNames, NestedNames, SchemaNames, TestWords, Words};
use walk::same;

// What a value of a profile is.
#[derive(Clone, Copy, Debug, PartialEq, Eq)]
pub enum Role {
    Profile,
    Resources,
    Schema,
    Version,
    Level,
    Properties,
    Property,
    NestedProperties,
    NestedProperty,
    Count,
    Comparison,
    CompareType,
    Values,
    Value,
    PropertyName,
    Conditions,
    Condition,
    SchemaNames,
    SchemaName,
    // Skipped, or in a place that has no such member.
    Other,
}

impl Role {
    /// What the value of a member of that name is, in an object of this role.
    pub fn member(self, name: &[u8]) -> Role {
        match self {
            Role::Profile => in_profile(name),
            Role::Resources => Role::Schema,
            Role::Schema => in_schema(name),
            Role::Properties => Role::Property,
            Role::Property => in_property(EntryNames::meaning(name)),
            Role::NestedProperties => Role::NestedProperty,
            Role::NestedProperty => in_property(NestedNames::meaning(name)),
            Role::Condition => in_condition(name),
            _ => Role::Other,
        }
    }

    // What an item is, in an array of this role.
    pub fn item(self) -> Role {
        match self {
            Role::Values => Role::Value,
            Role::Conditions => Role::Condition,
            Role::SchemaNames => Role::SchemaName,
            _ => Role::Other,
        }
    }

    // What is accepted as such a value, but for those that take only some strings.
    pub fn wanted(self) -> Option<&'static str> {
        match self {
            Role::Profile
            | Role::Schema
            | Role::Property
            | Role::NestedProperty
            | Role::Condition => Some("an object"),
            Role::Resources => Some("an object of schema entries by schema name"),
            Role::Properties | Role::NestedProperties => {
                Some("an object of property entries by property name")
            }
            Role::Version => Some(
                "a string of two or three parts joined by dots, each one to five digits and at most 65535",
            ),
            Role::Count => Some("a whole number from 0 to 65535"),
            Role::Values => Some(
                "an array of 1 to 16 strings, true, false, null or whole numbers of up to eighteen digits",
            ),
            Role::Value => Some(
                "a string, true, false, null or a whole number of up to eighteen digits",
            ),
            Role::Conditions => Some("an array of at most 16 conditions"),
            Role::SchemaNames => Some("an array of 1 to 8 strings, which name schemas"),
            Role::SchemaName => Some("a string, which names a schema"),
            _ => None,
        }
    }

    // The strings that are accepted as such a value, of which not every string is.
    pub fn strings(self) -> Option<&'static str> {
        match self {
            Role::Level => Some("Mandatory, Recommended, IfImplemented, Conditional, None"),
            Role::Comparison => Some(
                "AnyOf, AllOf, Equal, NotEqual, GreaterThan, GreaterThanOrEqual, LessThan, LessThanOrEqual",
            ),
            Role::CompareType => Some(
                "AnyOf, AllOf, Equal, NotEqual, GreaterThan, GreaterThanOrEqual, LessThan, LessThanOrEqual, Present, Absent",
            ),
            Role::PropertyName => Some("property names that do not begin with `/`"),
            _ => None,
        }
    }

    // The members that are accepted in such an object, of which not every name is.
    pub fn members(self) -> Option<&'static str> {
        match self {
            Role::Schema => Some(
                "MinVersion, ReadRequirement, PropertyRequirements (read) and Repository, Purpose, CreateResource, DeleteResource, UpdateResource (skipped)",
            ),
            Role::NestedProperty => Some(
                "ReadRequirement, MinCount, Comparison, Values, ReplacedByProperty, ReplacesProperty, ConditionalRequirements (read) and Purpose, WriteRequirement, MinSupportValues (skipped)",
            ),
            Role::Property => Some(
                "ReadRequirement, MinCount, Comparison, Values, ReplacedByProperty, ReplacesProperty, ConditionalRequirements, PropertyRequirements (read) and Purpose, WriteRequirement, MinSupportValues (skipped)",
            ),
            Role::Condition => Some(
                "SubordinateToResource, CompareProperty, CompareType, CompareValues, ReadRequirement, MinCount, Comparison, Values (read) and Purpose, WriteRequirement, MinSupportValues (skipped)",
            ),
            _ => None,
        }
    }
}

fn in_profile(name: &[u8]) -> Role {
    if same(name, b"Resources") {
        Role::Resources
    } else {
        Role::Other
    }
}

fn in_schema(name: &[u8]) -> Role {
    match SchemaNames::meaning(name) {
        Some(SchemaMember::MinVersion) => Role::Version,
        Some(SchemaMember::ReadRequirement) => Role::Level,
        Some(SchemaMember::PropertyRequirements) => Role::Properties,
        Some(SchemaMember::Skipped) | None => Role::Other,
    }
}

// The members of property entries.
fn in_property(member: Option<EntryMember>) -> Role {
    match member {
        Some(EntryMember::ReplacedByProperty | EntryMember::ReplacesProperty) => Role::PropertyName,
        Some(EntryMember::ConditionalRequirements) => Role::Conditions,
        Some(EntryMember::PropertyRequirements) => Role::NestedProperties,
        Some(EntryMember::Common(member)) => in_either(member),
        None => Role::Other,
    }
}

fn in_condition(name: &[u8]) -> Role {
    match ConditionNames::meaning(name) {
        Some(ConditionMember::SubordinateToResource) => Role::SchemaNames,
        Some(ConditionMember::CompareProperty) => Role::PropertyName,
        Some(ConditionMember::CompareType) => Role::CompareType,
        Some(ConditionMember::CompareValues) => Role::Values,
        Some(ConditionMember::Common(member)) => in_either(member),
        None => Role::Other,
    }
}

// The members that property entries and conditions share.
fn in_either(member: CommonMember) -> Role {
    match member {
        CommonMember::ReadRequirement => Role::Level,
        CommonMember::MinCount => Role::Count,
        CommonMember::Comparison => Role::Comparison,
        CommonMember::Values => Role::Values,
        CommonMember::Skipped => Role::Other,
    }
}

// What values a comparison takes.
#[derive(Clone, Copy, Debug, PartialEq, Eq)]
pub enum Takes {
    Several,
    One,
    OneWhole,
    // Such a test compares nothing.
    Nothing,
}

impl Takes {
    // What the comparison of that word takes, if it is one.
    pub fn of(word: &[u8]) -> Option<Takes> {
        Some(match TestWords::meaning(word)? {
            TestWord::Present | TestWord::Absent => Takes::Nothing,
            TestWord::By(operator) => Takes::by(operator),
        })
    }

    fn by(operator: Operator) -> Takes {
        match operator {
            Operator::AnyOf | Operator::AllOf => Takes::Several,
            Operator::Equal | Operator::NotEqual => Takes::One,
            Operator::GreaterThan
            | Operator::GreaterThanOrEqual
            | Operator::LessThan
            | Operator::LessThanOrEqual => Takes::OneWhole,
        }
    }
}
