//! A record taken apart: its path, then its body.
ghost use Rattle.std.specs.Prelude.{◌≡◌, None, Some, IfOk, IfErr};
ghost use Rattle.bundle.specs.Layout.{path_of, behind_path, path_fault};
ghost use Rattle.bundle.specs.Rows.{body_after, behind_body, body_fault_after};

use super::rules::Rule;
use store::MAX_BODY_BYTES;
use store::paths::is_path;

// The path that a record begins with, behind its length byte, and the bytes behind it.
pub(crate) fn split_path(bytes: &[u8]) -> Result<(&[u8], &[u8]), Rule>
    ensures ok { IfOk result (λ parts. (path_fault bytes.now ≡ None) × (parts.0.now ≡ path_of bytes.now) × (parts.1.now ≡ behind_path bytes.now)) }
    ensures err { IfErr result (λ rule. path_fault bytes.now ≡ Some rule) }
{
    let Some((length, rest)) = bytes.split_first() else {
        return Err(Rule::CutShort);
    };
    let Some((path, behind)) = rest.split_at_checked(*length as usize) else {
        return Err(Rule::CutShort);
    };
    if is_path(path) {
        Ok((path, behind))
    } else {
        Err(Rule::UnlawfulPath)
    }
}

// The body that stands behind a path and its own length in four bytes, the high byte first, and the bytes behind it.
pub(crate) fn split_body(behind_path: &[u8]) -> Result<(&[u8], &[u8]), Rule>
    ensures ok { IfOk result (λ parts. (body_fault_after behind_path.now ≡ None) × (parts.0.now ≡ body_after behind_path.now) × (parts.1.now ≡ behind_body behind_path.now)) }
    ensures err { IfErr result (λ rule. body_fault_after behind_path.now ≡ Some rule) }
{
    let Some((length, rest)) = behind_path.split_first_chunk::<4>() else {
        return Err(Rule::CutShort);
    };
    let length = u32::from_be_bytes(*length) as usize;
    if length > MAX_BODY_BYTES {
        return Err(Rule::LongBody);
    }
    let Some((body, behind)) = rest.split_at_checked(length) else {
        return Err(Rule::CutShort);
    };
    Ok((body, behind))
}
