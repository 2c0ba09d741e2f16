//! The check of a whole bundle, and the pairs of one that passes.
ghost use Rattle.std.specs.Prelude.{◌≡◌, ℕ, ◌≤◌, [], length, drop, Ok, Err, IfOk, IfErr, MatchOption};
ghost use Rattle.store.specs.Lent.{pairs_of};
ghost use Rattle.bundle.specs.Layout.{is_head, Headed, reading, checked, told};
ghost use Rattle.bundle.specs.Laws.{ReadsWritten, OneWriting, FirstRule, Shortest};

use super::rules::{Refusal, Rule};
use super::walk::walk;
use super::{FRONT_BYTES, MARK, MAX_BYTES, VERSION};
use arrayvec::ArrayVec;
use names::first_repeat;
use store::MAX_PAIRS;
use store::pairs::Pair;

// Whether these are the mark and the version of a bundle.
fn is_head(mark: [u8; 3], version: [u8; 2]) -> bool
    ensures { result ≡ is_head mark version }
{
    mark == MARK && version == VERSION
}

// The count behind the head, or none under seven bytes or at another head.
fn counted(bytes: &[u8]) -> Option<usize>
    ensures { MatchOption result ((n : ℕ) → Headed bytes.now n → ⊥) (λ n. Headed bytes.now n) }
{
    let [m0, m1, m2, v0, v1, rest @ ..] = bytes else {
        return None;
    };
    if !is_head([*m0, *m1, *m2], [*v0, *v1]) {
        return None;
    }
    let [high, low, ..] = rest else {
        return None;
    };
    Some(u16::from_be_bytes([*high, *low]) as usize)
}

// The pairs of the records, or the first broken rule. A path repeated among those that the walk has seen comes before what the walk met at last.
fn read_records(bytes: &[u8], count: usize) -> Result<ArrayVec<Pair<'_>, MAX_PAIRS>, Refusal>
    requires long { FRONT_BYTES ≤ length bytes.now }
    requires short { length bytes.now ≤ MAX_BYTES }
    requires few { count ≤ MAX_PAIRS }
    ensures ok { IfOk result (λ pairs. reading count [] (drop FRONT_BYTES bytes.now) FRONT_BYTES ≡ Ok (pairs_of pairs.items)) }
    ensures err { IfErr result (λ refusal. reading count [] (drop FRONT_BYTES bytes.now) FRONT_BYTES ≡ Err refusal) }
{
    let mut paths = ArrayVec::new();
    let pairs = walk(bytes, count, &mut paths);
    match first_repeat(bytes, paths.as_mut_slice()) {
        Some(path) => Err(Refusal {
            rule: Rule::RepeatedPath,
            place: path.start as usize,
        }),
        None => pairs,
    }
}

// The pairs of a bundle, or the first broken rule with its place.
pub(crate) fn read(bytes: &[u8]) -> Result<ArrayVec<Pair<'_>, MAX_PAIRS>, Refusal>
    ensures ok { IfOk result (λ pairs. checked bytes.now ≡ Ok (pairs_of pairs.items)) }
    ensures err { IfErr result (λ refusal. checked bytes.now ≡ Err refusal) }
{
    if bytes.len() > MAX_BYTES {
        return Err(Refusal {
            rule: Rule::TooLong,
            place: 0,
        });
    }
    let Some(count) = counted(bytes) else {
        return Err(Refusal {
            rule: Rule::Head,
            place: 0,
        });
    };
    if count > MAX_PAIRS {
        return Err(Refusal {
            rule: Rule::TooMany,
            place: 0,
        });
    }
    read_records(bytes, count)
}

/// Whether the bytes are a bundle, or else the first broken rule with its place.
pub fn check(bytes: &[u8]) -> Result<(), Refusal>
    ensures told { result ≡ told (checked bytes.now) }
    ensures written { ReadsWritten }
    ensures once { OneWriting }
    ensures first { FirstRule }
    ensures shortest { Shortest }
{
    read(bytes).map(|_| ())
}
