// What is missing in a property entry or a condition, or does not go together there.
use crate::shown::Shown;
use crate::words::{Role, Takes};
use std::fmt;
use walk::{Members, Value};

// A member that names a comparison, and the one with the values for it.
#[derive(Clone, Copy, Debug, PartialEq, Eq)]
pub struct Pair {
    word: &'static str,
    values: &'static str,
}

// The comparison that is asked for, and the one that decides whether a condition applies.
const ASKED: Pair = Pair {
    word: "Comparison",
    values: "Values",
};

const TESTED: Pair = Pair {
    word: "CompareType",
    values: "CompareValues",
};

// Why an object whose members are each accepted is not.
#[derive(Clone, Copy, Debug, PartialEq, Eq)]
pub enum Gap<'a> {
    NoTest,
    Lacks(&'static str, &'static str),
    NoValues(&'a [u8]),
    Clash(Pair, &'a [u8]),
}

impl fmt::Display for Gap<'_> {
    fn fmt<W: fmt::Write>(&self, f: &mut fmt::Formatter<W>) -> fmt::Result {
        match *self {
            Gap::NoTest => f.write_str("has neither `SubordinateToResource` nor `CompareProperty`"),
            Gap::Lacks(has, lacks) => write!(f, "has `{has}` but no `{lacks}`"),
            Gap::NoValues(word) => {
                let word = Shown(word);
                write!(
                    f,
                    "has the `CompareType` {word} but no `CompareValues`; only Present and Absent go without"
                )
            }
            Gap::Clash(pair, word) => {
                let values = pair.values;
                let member = pair.word;
                let word = Shown(word);
                write!(
                    f,
                    "has `{values}` that its `{member}` {word} does not take; AnyOf and AllOf take 1 to 16 values, Equal and NotEqual one value, GreaterThan, GreaterThanOrEqual, LessThan and LessThanOrEqual one whole number"
                )
            }
        }
    }
}

/// The first gap or clash of an object that is a property entry or a condition.
pub fn first_gap(role: Role, members: Members<'_>) -> Option<Gap<'_>> {
    match role {
        Role::Property | Role::NestedProperty => asked_gap(members).or(clash(members, ASKED)),
        Role::Condition => test_gap(members)
            .or(asked_gap(members))
            .or(clash(members, TESTED))
            .or(clash(members, ASKED)),
        _ => None,
    }
}

// What is missing of the test of a condition.
fn test_gap(members: Members<'_>) -> Option<Gap<'_>> {
    let property = members.get(b"CompareProperty");
    let values = members.get(b"CompareValues");
    if members.get(b"SubordinateToResource").or(property).is_none() {
        return Some(Gap::NoTest);
    }
    match (property, members.get(b"CompareType"), values) {
        (Some(_), None, _) => Some(Gap::Lacks("CompareProperty", "CompareType")),
        (None, None, Some(_)) => Some(Gap::Lacks("CompareValues", "CompareType")),
        (None, Some(_), _) => Some(Gap::Lacks("CompareType", "CompareProperty")),
        (Some(_), Some(word), None) => no_values(word.as_string()?),
        (None, None, None) | (Some(_), Some(_), Some(_)) => None,
    }
}

// What is missing where a test of that word has no values.
fn no_values(word: &[u8]) -> Option<Gap<'_>> {
    match Takes::of(word)? {
        Takes::Nothing => None,
        _ => Some(Gap::NoValues(word)),
    }
}

// What is missing of the comparison that is asked for.
fn asked_gap(members: Members<'_>) -> Option<Gap<'_>> {
    let _ = members.get(b"Comparison")?;
    match members.get(b"Values") {
        Some(_) => None,
        None => Some(Gap::Lacks("Comparison", "Values")),
    }
}

// Whether the values of a pair are none that its word takes.
fn clash(members: Members<'_>, pair: Pair) -> Option<Gap<'_>> {
    let word = members.get(pair.word.as_bytes())?.as_string()?;
    let values = members.get(pair.values.as_bytes())?;
    if fits(Takes::of(word)?, values) {
        None
    } else {
        Some(Gap::Clash(pair, word))
    }
}

// Whether a comparison takes the values in an array.
fn fits(takes: Takes, values: Value) -> bool {
    match takes {
        Takes::Several | Takes::Nothing => true,
        Takes::One => only_item(values).is_some(),
        Takes::OneWhole => only_item(values).and_then(Value::as_whole).is_some(),
    }
}

// The item of an array that has just one.
fn only_item(array: Value<'_>) -> Option<Value<'_>> {
    let mut items = array.items()?;
    let item = items.next()?;
    match items.next() {
        None => Some(item),
        Some(_) => None,
    }
}
