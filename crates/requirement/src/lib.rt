// What a profile asks: its words and members, the clauses that its text spells, and the faults for which it is refused.
#![tactic(auto)]

mod fault;
mod words;

pub use fault::ProfileFault;
pub use words::{CommonMember, ConditionMember, EntryMember, Operator, SchemaMember, TestWord};
