//! Packing: the bundle of any store, written into a lent buffer.
#![tactic(auto)]

ghost use Rattle.std.specs.Prelude.{◌≡◌, ◌+◌, ◌≤◌, length};
ghost use Rattle.std.specs.List.{flat_map};
ghost use Rattle.bundle.specs.Layout.{record_of, written};
ghost use Rattle.packing.specs.Packing.{over, packed, OpensAgain, OpensPacked};

use store::Store;
use store::pairs::Pairs;

mod writing;

use bundle::{FRONT_BYTES, LENGTHS_BYTES, MAX_BYTES};
use writing::{write_front, write_record};

/// Why a store is not packed.
#[derive(Clone, Copy, Debug, PartialEq, Eq)]
pub enum PackRefusal {
    /// The bundle would have more than 16,777,216 bytes.
    TooLong,
    /// The buffer is shorter than the bundle.
    TooShort,
}

/// How many bytes the bundle of the store has.
#[tactic(auto, using(crate::proofs::Sizes::written_length))]
pub fn size<S: Store>(store: &S) -> usize
    ensures { result ≡ length (written (S.Store.pairs store.now)) }
{
    let mut total = FRONT_BYTES;
    for pair in Pairs::of(store) {
        total += LENGTHS_BYTES + pair.path.len() + pair.body.len();
    }
    total
}

// Writes the records of the store one after the other, from `place` on.
fn write_records<S: Store>(store: &S, out: &mut [u8], mut place: usize)
    requires { place + length (flat_map record_of (S.Store.pairs store.now)) ≤ length out.old }
    ensures { out.new ≡ over out.old place (flat_map record_of (S.Store.pairs store.now)) }
{
    for pair in Pairs::of(store) {
        place = write_record(out, place, pair);
    }
}

/// Writes the bundle of the store to the front of the buffer, and says how long it is. A refusal leaves the buffer as it was.
pub fn pack<S: Store>(store: &S, out: &mut [u8]) -> Result<usize, PackRefusal>
    ensures answer { result ≡ (packed (S.Store.pairs store.now) out.old).0 }
    ensures buffer { out.new ≡ (packed (S.Store.pairs store.now) out.old).1 }
    ensures again { OpensAgain }
    ensures opens { OpensPacked }
{
    let total = size(store);
    if total > MAX_BYTES {
        return Err(PackRefusal::TooLong);
    }
    if out.len() < total {
        return Err(PackRefusal::TooShort);
    }
    let place = write_front(out, store.count());
    write_records(store, out, place);
    Ok(total)
}
