// What a value of a profile says taken by itself: every reading is total, and none where the value is of another kind or out of range.
ghost use Rattle.std.specs.Prelude.{◌≡◌, is_some};
ghost use Rattle.std.specs.Option.{option_map};
ghost use Rattle.walk.specs.Told.{spelled};
ghost use Rattle.requirement.specs.Words.{count as count_of, scalar, version as version_of};
ghost use Rattle.terms.specs.Stated.{version_told};

use crate::version::{Version, bounded, version_said};
use syntax::Kind;
use walk::Value;

/// A count.
pub fn count(value: Value) -> Option<usize>
    ensures { result ≡ count_of (spelled value.entry) }
{
    let n = bounded(value.as_whole()?)?;
    Some(usize::from(n))
}

/// A version.
pub fn version_at(value: Value) -> Option<Version>
    ensures { result ≡ option_map version_told (version_of (spelled value.entry)) }
{
    version_said(value.as_string()?)
}

/// Whether it can be compared: a string, true, false, null or a whole number.
pub fn is_scalar(value: Value) -> bool
    ensures { result ≡ is_some (scalar (spelled value.entry)) }
{
    match value.kind() {
        Kind::Array | Kind::Object => false,
        Kind::Number => value.as_whole().is_some(),
        _ => true,
    }
}
