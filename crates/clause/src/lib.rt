// The clauses of a profile, one after the other, each told by its parts.
#![tactic(auto)]

mod asked;
mod clauses;
mod conditions;
mod entries;
mod listed;
mod parts;
mod scalars;

pub use asked::{Asked, Comparison};
pub use clauses::{Clauses, clause};
pub use conditions::{Condition, Test};
pub use entries::{Entry, Parent};
pub use listed::{FromValue, Listed};
pub use parts::{Clause, Conditions, Demand, Scalars, Strings};
pub use scalars::Scalar;
