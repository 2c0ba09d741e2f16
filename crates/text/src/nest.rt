// A value, by recursion with the depth that is left. The text and a place stay two parameters, and the turns of a loop pass the place on:
// a struct of both would be taken apart again at each call, which is no plainer.
ghost use Rattle.std.specs.Prelude.{◌≡◌, ◌<◌, ◌-◌, false, length, slice_index, slice_index_or};
ghost use Rattle.syntax.specs.Bytes.{white};
ghost use Rattle.syntax.specs.Machine.{limits, live, value as value_mode};
ghost use Rattle.text.specs.Scans.{Reads};
ghost use Rattle.text.specs.Rows.{Room, Leaves};

use crate::fault;
use crate::open_names::OpenNames;
use crate::part::Part;
use crate::scalars::scalar;
use crate::scan::{colon, name, skip, stands};
use syntax::{Cause, Fault, Kind};

// The value whose first byte has to stand at `at`, in which `depth` brackets may open one inside the other.
// Where names are to be distinct, `names` has room for all that can come.
#[cycle(nesting)]
pub(crate) fn value_here<N: OpenNames>(
    s: &[u8],
    at: usize,
    depth: usize,
    names: &mut N,
) -> Result<Part, Fault>
    requires solid { at < length s.now → white (slice_index s.now at) ≡ false }
    requires room { Room N.distinct s.now at (N.capacity - length (N.kept names.old)) }
    ensures same { N.kept names.new ≡ N.kept names.old }
    ensures reads { Reads (limits N.distinct) (live value_mode) depth s.now at result }
{
    if at >= s.len() {
        return Err(fault(Cause::Malformed, at));
    }
    match s[at] {
        b'[' => array(s, at, depth, names),
        b'{' => object(s, at, depth, names),
        _ => scalar(s, at),
    }
}

// The array whose bracket stands at `open`.
#[cycle(nesting)]
fn array<N: OpenNames>(s: &[u8], open: usize, depth: usize, names: &mut N) -> Result<Part, Fault>
    requires within { «open» < length s.now }
    requires bracket { slice_index_or s.now «open» 0 ≡ 91 }
    requires room { Room N.distinct s.now «open» (N.capacity - length (N.kept names.old)) }
    ensures same { N.kept names.new ≡ N.kept names.old }
    ensures reads { Reads (limits N.distinct) (live value_mode) depth s.now «open» result }
{
    if depth == 0 {
        return Err(fault(Cause::TooDeep, open));
    }
    let mut i = skip(s, open + 1);
    if stands(s, i, b']') {
        return Ok(Part {
            kind: Kind::Array,
            start: open,
            end: i + 1,
        });
    }
    // no `for`: where the next item begins is known only when this one was read
    'items: loop {
        let item = value_here(s, i, depth - 1, names)?;
        let close = skip(s, item.end);
        if stands(s, close, b']') {
            return Ok(Part {
                kind: Kind::Array,
                start: open,
                end: close + 1,
            });
        }
        if !stands(s, close, b',') {
            return Err(fault(Cause::Malformed, close));
        }
        i = skip(s, close + 1);
    }
}

// The object whose brace stands at `open`. A repeated name in it stands before whatever else is wrong with it.
#[cycle(nesting)]
fn object<N: OpenNames>(s: &[u8], open: usize, depth: usize, names: &mut N) -> Result<Part, Fault>
    requires within { «open» < length s.now }
    requires brace { slice_index_or s.now «open» 0 ≡ 123 }
    requires room { Room N.distinct s.now «open» (N.capacity - length (N.kept names.old)) }
    ensures same { N.kept names.new ≡ N.kept names.old }
    ensures reads { Reads (limits N.distinct) (live value_mode) depth s.now «open» result }
{
    if depth == 0 {
        return Err(fault(Cause::TooDeep, open));
    }
    let mark = names.count();
    let read = members(s, open, depth, names);
    if let Some(name) = names.close(s, mark) {
        return Err(fault(Cause::RepeatedName, name.end as usize));
    }
    read
}

// The same, with the names of the object itself left uncompared behind those that `names` has.
#[cycle(nesting)]
fn members<N: OpenNames>(s: &[u8], open: usize, depth: usize, names: &mut N) -> Result<Part, Fault>
    requires within { «open» < length s.now }
    requires brace { slice_index_or s.now «open» 0 ≡ 123 }
    requires shallow { 0 < depth }
    requires room { Room N.distinct s.now «open» (N.capacity - length (N.kept names.old)) }
    ensures { Leaves N.distinct depth s.now «open» (N.kept names.old) (N.kept names.new) result }
{
    let mut i = skip(s, open + 1);
    if stands(s, i, b'}') {
        return Ok(Part {
            kind: Kind::Object,
            start: open,
            end: i + 1,
        });
    }
    // no `for`, as in an array
    'members: loop {
        let quote = name(s, i)?;
        names.note(i, quote);
        let from = colon(s, quote + 1)?;
        let member = value_here(s, skip(s, from), depth - 1, names)?;
        let close = skip(s, member.end);
        if stands(s, close, b'}') {
            return Ok(Part {
                kind: Kind::Object,
                start: open,
                end: close + 1,
            });
        }
        if !stands(s, close, b',') {
            return Err(fault(Cause::Malformed, close));
        }
        i = skip(s, close + 1);
    }
}
