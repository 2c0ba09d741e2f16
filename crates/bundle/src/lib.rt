//! Bundles of captures: a search store over lent bytes.
#![tactic(auto)]

mod reading;
mod records;
mod rules;
mod table;
mod walk;

/// The mark that every bundle begins with.
pub const MARK: [u8; 3] = [b'C', b'A', b'P'];

/// The version of the bundles, behind the mark.
pub const VERSION: [u8; 2] = [0, 1];

/// How many bytes stand before the records: the mark, the version, and the count in two bytes.
pub const FRONT_BYTES: usize = 7;

/// How many bytes a record has beside its path and its body: the length of the path in one byte, and that of the body in four.
pub const LENGTHS_BYTES: usize = 5;

/// The most bytes that a bundle has.
pub const MAX_BYTES: usize = 16_777_216;

pub use reading::check;
pub use rules::{Refusal, Rule};
pub use table::Bundle;
