// Single words, names and values of a profile, by their bytes or by the value.
#![tactic(auto)]

mod member_names;
mod stated;
mod values;
mod version;
mod words;

pub use member_names::{
    CommonNames, ConditionNames, EntryNames, NestedNames, SchemaNames, property_name,
};
pub use stated::{properties, schemas, stated_operator, stated_test, stated_version};
pub use values::{count, is_scalar, version_at};
pub use version::{Version, version_said};
pub use words::{LevelWords, OperatorWords, TestWords, Words};
