// The words of profiles, and the members of their objects.

/// How what is found is compared with the values that stand in a profile.
#[derive(Clone, Copy, Debug, PartialEq, Eq)]
pub enum Operator {
    AnyOf,
    AllOf,
    Equal,
    NotEqual,
    GreaterThan,
    GreaterThanOrEqual,
    LessThan,
    LessThanOrEqual,
}

/// What a condition tests of a property.
#[derive(Clone, Copy, Debug, PartialEq, Eq)]
pub enum TestWord {
    Present,
    Absent,
    By(Operator),
}

/// The members that property entries and conditions have in common. Some are named and skipped.
#[derive(Clone, Copy, Debug, PartialEq, Eq)]
pub enum CommonMember {
    ReadRequirement,
    MinCount,
    Comparison,
    Values,
    Skipped,
}

/// The members of a condition.
#[derive(Clone, Copy, Debug, PartialEq, Eq)]
pub enum ConditionMember {
    SubordinateToResource,
    CompareProperty,
    CompareType,
    CompareValues,
    Common(CommonMember),
}

/// The members of a property entry; the last stands on the first level only.
#[derive(Clone, Copy, Debug, PartialEq, Eq)]
pub enum EntryMember {
    Common(CommonMember),
    ReplacedByProperty,
    ReplacesProperty,
    ConditionalRequirements,
    PropertyRequirements,
}

/// The members of a schema entry.
#[derive(Clone, Copy, Debug, PartialEq, Eq)]
pub enum SchemaMember {
    MinVersion,
    ReadRequirement,
    PropertyRequirements,
    Skipped,
}
