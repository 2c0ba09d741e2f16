// Moving about in any bytes by place: values, the items of an array and the members of an object, one after the other, and what names, strings and numbers say.
#![tactic(auto)]

mod found;
mod items;
mod members;
mod numbers;
pub mod places;
mod steps;
mod value;

pub use items::Items;
pub use members::{Member, Members, Name};
pub use names::same;
pub use numbers::whole;
pub use places::{Item, digits, find, item, letters, member};
pub use text::Part;
pub use value::Value;
