// What single values, comparisons and conditions of a profile are refused for, by their values.
#![tactic(auto)]

mod comparison;
mod conditional;
mod lists;
mod rules;
mod single;

pub use comparison::{common_part, comparison_fits};
pub use conditional::{condition, conditions};
pub use lists::{names, values};
pub use rules::{MemberRule, ObjectRule, Rule, array, members, object};
pub use single::{Check, few, level, property, sure, unlawful, version};
