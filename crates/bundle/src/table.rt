//! A bundle as a store: the bytes, and the pairs cut from them.
ghost use Rattle.std.specs.Prelude.{◌≡◌, ◌<◌, length, take, drop, slice_index_or};
ghost use Rattle.store.specs.Pairs.{Lawful, nothing, path_at, body_at};
ghost use Rattle.store.specs.Lent.{pair_of, pairs_of};
ghost use Rattle.bundle.specs.Layout.{opened, path_place, path_length, body_place, body_length};

use super::reading::read;
use arrayvec::ArrayVec;
use store::pairs::Pair;
use store::{MAX_PAIRS, Search, Store};

/// The store over the bytes of a bundle.
#[derive(Drop)]
pub struct Bundle<'a> {
    bytes: &'a [u8],
    pairs: ArrayVec<Pair<'a>, MAX_PAIRS>,
    ghost cut: { pairs_of pairs.items ≡ opened bytes.now },
    ghost lawful: { Lawful (opened bytes.now) },
}

impl<'a> Bundle<'a> {
    /// The store over the bytes. Bytes that the check refuses are the store with no pairs.
    pub fn open(bytes: &'a [u8]) -> Bundle<'a>
        ensures same { result.bytes.now ≡ bytes.now }
        ensures pairs { opened result.bytes.now ≡ opened bytes.now }
    {
        let pairs = read(bytes).unwrap_or_default();
        Bundle { bytes, pairs }
    }

    // Pair number `n`, past the end the empty pair.
    fn pair(&self, n: usize) -> Pair<'_>
        ensures { pair_of result ≡ slice_index_or (opened self.now.bytes.now) n nothing }
    {
        self.pairs.get(n).copied().unwrap_or_default()
    }
}

impl<'a> Store for Bundle<'a> {
    ghost pairs = { λ b. opened b.bytes.now };

    fn count(&self) -> usize {
        self.pairs.len()
    }

    // A part of the bytes: the one that follows the length byte of record number `n`.
    fn path(&self, n: usize) -> &[u8]
        ensures contents { result.now ≡ path_at (opened self.now.bytes.now) n }
        ensures place { n < length (opened self.now.bytes.now) → result.now ≡ take (path_length self.now.bytes.now n) (drop (path_place self.now.bytes.now n) self.now.bytes.now) }
    {
        self.pair(n).path
    }

    // A part of the bytes: the last one of record number `n`.
    fn body(&self, n: usize) -> &[u8]
        ensures contents { result.now ≡ body_at (opened self.now.bytes.now) n }
        ensures place { n < length (opened self.now.bytes.now) → result.now ≡ take (body_length self.now.bytes.now n) (drop (body_place self.now.bytes.now n) self.now.bytes.now) }
    {
        self.pair(n).body
    }

    ghost lawful = { λ b. b.lawful };
}

impl<'a> Search for Bundle<'a> {}
