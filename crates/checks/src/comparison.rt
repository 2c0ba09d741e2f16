// Operators with the values that they take, and what entries and conditions have in common.
ghost use Rattle.std.specs.Prelude.{◌≡◌};
ghost use Rattle.std.specs.Option.{option_map};
ghost use Rattle.syntax.specs.Contents.{items as items_of};
ghost use Rattle.requirement.specs.Check.{one_number as one_number_of, takes as takes_of, fits as fits_of, comparison_fits, common_part};
ghost use Rattle.walk.specs.Told.{spelled, items_left, members_left};

use crate::lists::values;
use crate::single::{Check, count, few, level, operator};
use requirement::{CommonMember, Operator};
use terms::stated_operator;
use walk::{Items, Members, Value};

// Whether one whole number comes, and nothing else.
fn one_number(items: Items) -> bool
    ensures { result ≡ one_number_of (items_left items.entry) }
{
    let mut rest = items;
    match rest.next() {
        Some(value) => value.as_whole().is_some() && rest.next().is_none(),
        None => false,
    }
}

// Whether an operator takes these values.
fn takes(operator: Operator, values: Items) -> bool
    ensures { result ≡ takes_of operator (items_left values.entry) }
{
    match operator {
        Operator::AnyOf | Operator::AllOf => true,
        Operator::Equal | Operator::NotEqual => few(values, 1, 1),
        Operator::GreaterThan
        | Operator::GreaterThanOrEqual
        | Operator::LessThan
        | Operator::LessThanOrEqual => one_number(values),
    }
}

// Whether an operator has values, and takes them.
pub(crate) fn fits(operator: Option<Operator>, values: Option<Value>) -> bool
    ensures { result ≡ fits_of operator (option_map items_of (option_map spelled values.entry)) }
{
    match (operator, values) {
        (None, _) => true,
        (Some(_), None) => false,
        (Some(operator), Some(values)) => takes(operator, values.items_or_none()),
    }
}

/// Whether the operator that `Comparison` states, if it does, has `Values` that it takes.
pub fn comparison_fits(members: Members) -> bool
    ensures { result ≡ comparison_fits (members_left members.entry) }
{
    fits(stated_operator(members), members.get(b"Values"))
}

/// A member that entries and conditions have in common.
pub fn common_part(member: CommonMember, value: Value) -> Check
    ensures { result ≡ common_part member (spelled value.entry) }
{
    match member {
        CommonMember::ReadRequirement => level(value),
        CommonMember::MinCount => count(value),
        CommonMember::Comparison => operator(value),
        CommonMember::Values => values(value),
        CommonMember::Skipped => Ok(()),
    }
}
