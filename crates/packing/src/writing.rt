//! The parts of a bundle, each written at a place of the buffer.
ghost use Rattle.std.specs.Prelude.{◌≡◌, ◌+◌, ◌≤◌, ◌++◌, length};
ghost use Rattle.store.specs.Lent.{pair_of};
ghost use Rattle.bundle.specs.Layout.{head, in_two, record_of};
ghost use Rattle.packing.specs.Packing.{over};

use bundle::{FRONT_BYTES, LENGTHS_BYTES, MARK, VERSION};
use store::pairs::Pair;
use store::paths::MAX_PATH_BYTES;
use store::{MAX_BODY_BYTES, MAX_PAIRS};

// Writes the bytes at the place, and says where they end. A buffer that is cut shorter at each step would have to say each time how the writes come
// back, and be no plainer.
fn put(out: &mut [u8], place: usize, bytes: &[u8]) -> usize
    requires { place + length bytes.now ≤ length out.old }
    ensures wrote { out.new ≡ over out.old place bytes.now }
    ensures end { result ≡ place + length bytes.now }
{
    let end = place + bytes.len();
    out[place..end].copy_from_slice(bytes);
    end
}

// Writes the mark, the version and the count, and says where they end.
pub(crate) fn write_front(out: &mut [u8], count: usize) -> usize
    requires few { count ≤ MAX_PAIRS }
    requires room { FRONT_BYTES ≤ length out.old }
    ensures wrote { out.new ≡ over out.old 0 (head ++ in_two count) }
    ensures end { result ≡ FRONT_BYTES }
{
    let place = put(out, 0, &MARK);
    let place = put(out, place, &VERSION);
    put(out, place, &(count as u16).to_be_bytes())
}

// Writes a record at the place, and says where it ends.
pub(crate) fn write_record(out: &mut [u8], place: usize, pair: Pair<'_>) -> usize
    requires named { length pair.path.now ≤ MAX_PATH_BYTES }
    requires small { length pair.body.now ≤ MAX_BODY_BYTES }
    requires room { place + (LENGTHS_BYTES + length pair.path.now + length pair.body.now) ≤ length out.old }
    ensures wrote { out.new ≡ over out.old place (record_of (pair_of pair.entry)) }
    ensures end { result ≡ place + (LENGTHS_BYTES + length pair.entry.path.now + length pair.entry.body.now) }
{
    let place = put(out, place, &[pair.path.len() as u8]);
    let place = put(out, place, pair.path);
    let place = put(out, place, &(pair.body.len() as u32).to_be_bytes());
    put(out, place, pair.body)
}
