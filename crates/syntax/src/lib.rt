// What JSON texts are: the kinds of values, the faults, and the laws that tie the reading of a text to the grammar.
#![tactic(auto)]

mod kinds;

pub use kinds::{Cause, Digits, Fault, Kind, Letters, Literal};
