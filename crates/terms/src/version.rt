// Versions: two or three parts joined by dots.
ghost use Rattle.std.specs.Prelude.{◌≡◌};
ghost use Rattle.std.specs.Option.{option_map};
ghost use Rattle.requirement.specs.Words.{part as part_of, triple, version_said as said};
ghost use Rattle.terms.specs.Stated.{bounded_number, version_told};

use walk::whole;

/// A version, in which a later part counts only where the earlier ones are equal.
#[derive(Clone, Copy, Debug, PartialEq, Eq, PartialOrd, Ord)]
pub struct Version {
    pub major: u16,
    pub minor: u16,
    pub patch: u16,
}

// A number that is at most 65,535, and not negative.
pub(crate) fn bounded(n: i64) -> Option<u16>
    ensures { result ≡ bounded_number n }
{
    u16::try_from(n).ok()
}

// A part of a version: one to five digits.
#[tactic(auto, using(crate::proofs::Versions::too_long, crate::proofs::Versions::no_part))]
fn part(digits: &[u8]) -> Option<u16>
    ensures { result ≡ part_of digits.now }
{
    if digits.len() > 5 {
        return None;
    }
    match digits {
        [b'-', ..] => None,
        _ => bounded(whole(digits)?),
    }
}

// A version, where all of its parts are there.
fn joined(major: Option<u16>, minor: Option<u16>, patch: Option<u16>) -> Option<Version>
    ensures { result ≡ option_map version_told (triple major minor patch) }
{
    Some(Version {
        major: major?,
        minor: minor?,
        patch: patch?,
    })
}

/// The version that a string says; a missing third part is 0.
pub fn version_said(bytes: &[u8]) -> Option<Version>
    ensures { result ≡ option_map version_told (said bytes.now) }
{
    let mut parts = bytes.split(|b| *b == b'.');
    match (parts.next(), parts.next(), parts.next(), parts.next()) {
        (Some(major), Some(minor), None, _) => joined(part(major), part(minor), Some(0)),
        (Some(major), Some(minor), Some(patch), None) => {
            joined(part(major), part(minor), part(patch))
        }
        _ => None,
    }
}
