// A clause, and the lists in it.
use crate::conditions::Condition;
use crate::entries::{Entry, Parent};
use crate::listed::Listed;
use crate::scalars::Scalar;
use grade::Level;
use terms::Version;

/// Values to compare; what is none is passed over.
pub type Scalars<'a> = Listed<'a, Scalar<'a>>;

/// Names; what is none is passed over.
pub type Strings<'a> = Listed<'a, &'a [u8]>;

/// Conditions.
pub type Conditions<'a> = Listed<'a, Condition<'a>>;

/// What a clause demands.
// no Debug and no comparison: either would go through the bytes of the profile
#[derive(Clone, Copy)]
pub enum Demand<'a> {
    Presence(Level),
    Version {
        level: Level,
        least: Version,
    },
    Property(Entry<'a>),
    Nested {
        parent: Parent<'a>,
        entry: Entry<'a>,
    },
}

/// A clause: the name of the schema that it is about, the opening quote of the schema name, of `MinVersion` or of the property name, and what it demands.
// no Debug and no comparison: either would go through the bytes of the profile
#[derive(Clone, Copy)]
pub struct Clause<'a> {
    pub schema: &'a [u8],
    pub place: usize,
    pub demand: Demand<'a>,
}
