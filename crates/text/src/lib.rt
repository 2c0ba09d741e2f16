// Reads JSON texts, and finds the parts of one by their places, without memory of its own.
#![tactic(auto)]

mod bytes;
mod nest;
mod open_names;
mod part;
mod reader;
mod scalars;
mod scan;

ghost use Rattle.std.specs.Prelude.{◌≡◌};

pub use part::Part;
pub use reader::{read, value};
pub use scan::skip;
pub use syntax::{Cause, Fault, Kind};

// The fault of a cause at a place.
fn fault(cause: Cause, place: usize) -> Fault
    ensures { result ≡ record { cause = cause; place = place } }
{
    Fault { cause, place }
}
