// Why an inspection refuses to take up a profile.
#![tactic(auto)]

ghost use Rattle.std.specs.Prelude.{◌≡◌};
ghost use Rattle.refusal.specs.Faults.{told};
ghost use Rattle.refusal.specs.declared.InspectionFault.TheVariants.{Profile};

use refused::Refused;
use requirement::ProfileFault;

/// No profile has that number; as many are picked as may be; the profile itself is at fault.
#[derive(Clone, Copy, Debug, PartialEq, Eq)]
pub enum InspectionFault {
    NoProfile,
    TooManyPicks,
    Profile(ProfileFault),
}

impl From<ProfileFault> for InspectionFault {
    ghost from_gives = { λ e r. r ≡ Profile e };

    fn from(fault: ProfileFault) -> InspectionFault {
        InspectionFault::Profile(fault)
    }
}

impl From<InspectionFault> for Refused {
    ghost from_gives = { λ e r. r ≡ told e };

    fn from(fault: InspectionFault) -> Refused {
        match fault {
            InspectionFault::NoProfile => Refused {
                number: 11,
                cause: 0,
                place: 0,
            },
            InspectionFault::TooManyPicks => Refused {
                number: 12,
                cause: 0,
                place: 0,
            },
            InspectionFault::Profile(fault) => Refused::from(fault),
        }
    }
}
