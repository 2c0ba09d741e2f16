// Reading a profile: whether it is one, and how many clauses it has.
#![tactic(auto)]

ghost use Rattle.std.specs.Prelude.{◌≡◌};
ghost use Rattle.requirement.specs.Laws.{Laws};
ghost use Rattle.requirement.specs.Reading.{reading_profile};
ghost use Rattle.profile.specs.Counting.{counted};

mod counting;
mod entries;
mod schemas;

use counting::clauses;
use requirement::ProfileFault;
use schemas::check;
use walk::Value;

// The most clauses that a profile has.
const MOST: usize = 1_024;

/// Reads a profile: a text, every member as the rules have it, and at most 1,024 clauses. Answers how many.
#[tactic(auto, using(requirement::proofs::Stands::laws))]
pub fn read(profile: &[u8]) -> Result<usize, ProfileFault>
    ensures is { result ≡ counted (reading_profile profile.now) }
    ensures laws { Laws }
{
    let root = Value::read(profile)?;
    check(root)?;
    let count = clauses(root);
    if count <= MOST {
        Ok(count)
    } else {
        Err(ProfileFault::TooMany)
    }
}
