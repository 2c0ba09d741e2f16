// The faults of a profile, and how they are told.
ghost use Rattle.std.specs.Prelude.{◌≡◌};
ghost use Rattle.requirement.specs.Faults.{told};
ghost use Rattle.requirement.specs.declared.fault.ProfileFault.TheVariants.{Text};

use refused::Refused;
use syntax::Fault;

/// Why bytes are no profile: a text's fault, carried whole; a value of the wrong kind or out of range, or the brace of an
/// object with a gap or a clash; the quote of a name or word that the rules do not have; too many clauses.
#[derive(Clone, Copy, Debug, PartialEq, Eq)]
pub enum ProfileFault {
    Text(Fault),
    Unlawful(usize),
    Unnamed(usize),
    TooMany,
}

impl From<Fault> for ProfileFault {
    ghost from_gives = { λ e r. r ≡ Text e };

    fn from(fault: Fault) -> ProfileFault {
        ProfileFault::Text(fault)
    }
}

impl From<ProfileFault> for Refused {
    ghost from_gives = { λ e r. r ≡ told e };

    fn from(fault: ProfileFault) -> Refused {
        let (number, cause, place) = match fault {
            ProfileFault::Text(Fault { cause, place }) => (13, cause.number(), place),
            ProfileFault::Unlawful(place) => (14, 0, place),
            ProfileFault::Unnamed(place) => (15, 0, place),
            ProfileFault::TooMany => (16, 0, 0),
        };
        Refused {
            number,
            cause,
            place,
        }
    }
}
