//! A walk over the records that leaves repeated paths aside, and notes where the paths stand.
ghost use Rattle.std.specs.Prelude.{◌≡◌, ◌+◌, ◌<◌, ◌≤◌, [], length, Ok, Err, IfOk, IfErr};
ghost use Rattle.arrayvec.specs.ArrayVec.{array_vec_len};
ghost use Rattle.store.specs.Lent.{pairs_of};
ghost use Rattle.bundle.specs.Layout.{first_pairs};
ghost use Rattle.bundle.specs.Rows.{seen, tells, rows_of, Cuts, EndsAt};

use super::records::{split_body, split_path};
use super::rules::{Refusal, Rule};
use super::{FRONT_BYTES, MAX_BYTES};
use arrayvec::ArrayVec;
use names::Span;
use store::MAX_PAIRS;
use store::pairs::Pair;

// The pair of the record that the bytes, which stand at `place`, begin with, and the bytes behind it. A path that is whole and lawful is noted in `paths`.
fn cut<'a>(
    bytes: &'a [u8],
    place: usize,
    paths: &mut ArrayVec<Span, MAX_PAIRS>,
) -> Result<(Pair<'a>, &'a [u8]), Rule>
    requires low { place + length bytes.now ≤ MAX_BYTES }
    requires room { array_vec_len paths.old < MAX_PAIRS }
    ensures ok { IfOk result (λ parts. Cuts bytes.now place paths.old.items paths.new.items parts.0 parts.1.now) }
    ensures err { IfErr result (EndsAt bytes.now place paths.old.items paths.new.items) }
{
    let (path, behind_path) = split_path(bytes)?;
    paths.push(Span {
        start: place as u32,
        end: (place + 1 + path.len()) as u32,
    });
    let (body, behind) = split_body(behind_path)?;
    Ok((Pair { path, body }, behind))
}

// The pairs of the records, or the first fault. The places of the paths go into `paths`, up to the first path that is cut short or unlawful.
pub(crate) fn walk<'a>(
    bytes: &'a [u8],
    count: usize,
    paths: &mut ArrayVec<Span, MAX_PAIRS>,
) -> Result<ArrayVec<Pair<'a>, MAX_PAIRS>, Refusal>
    requires long { FRONT_BYTES ≤ length bytes.now }
    requires short { length bytes.now ≤ MAX_BYTES }
    requires few { count ≤ MAX_PAIRS }
    requires blank { paths.old.items ≡ [] }
    ensures seen { paths.new.items ≡ rows_of bytes.now (seen count bytes.now 0) }
    ensures ok { IfOk result (λ pairs. (tells count bytes.now 0 ≡ Ok tt) × (pairs_of pairs.items ≡ first_pairs bytes.now count)) }
    ensures err { IfErr result (λ refusal. tells count bytes.now 0 ≡ Err refusal) }
{
    let mut pairs = ArrayVec::new();
    let mut rest = &bytes[FRONT_BYTES..];
    for _n in 0..count {
        let place = bytes.len() - rest.len();
        match cut(rest, place, paths) {
            Ok((pair, behind)) => {
                pairs.push(pair);
                rest = behind;
            }
            Err(rule) => return Err(Refusal { rule, place }),
        }
    }
    if rest.is_empty() {
        Ok(pairs)
    } else {
        Err(Refusal {
            rule: Rule::LeftOver,
            place: bytes.len() - rest.len(),
        })
    }
}
