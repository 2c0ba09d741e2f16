//! The pairs of a store, one after the other.
ghost use Rattle.std.specs.Prelude.{◌≡◌, List, drop, length};
ghost use Rattle.store.specs.Pairs as meaning;

use crate::Store;
use std::marker::Model;

/// A path and its body.
#[derive(Clone, Copy, Debug, Default, PartialEq, Eq)]
pub struct Pair<'a> {
    pub path: &'a [u8],
    pub body: &'a [u8],
}

/// The pairs of a store in their order. A clause sees it as the list of those that are left.
#[derive(Drop)]
pub struct Pairs<'a, S: Store> {
    store: &'a S,
    next: usize,
    // asked once: a store may have to go through all of its pairs to count them
    count: usize,
    ghost counted: { count ≡ length (S.pairs store.now) },
}

impl<'a, S: Store> Model for Pairs<'a, S> {
    ghost Value = { List meaning.Pair };

    ghost view = { λ p. drop p.next (S.pairs p.store.now) };
}

impl<'a, S: Store> Pairs<'a, S> {
    /// The pairs of `store`.
    pub fn of(store: &'a S) -> Pairs<'a, S>
        ensures { result ≡ S.pairs store.now }
    {
        Pairs {
            store,
            next: 0,
            count: store.count(),
        }
    }
}

impl<'a, S: Store> Iterator for Pairs<'a, S> {
    ghost use Rattle.std.specs.Iterator.{YieldsFirstBy, item_count};
    ghost use Rattle.store.specs.Lent.{pair_of};

    type Item = Pair<'a>;

    ghost next_gives = { YieldsFirstBy pair_of (λ p. p) };

    ghost remaining = { item_count (λ p. p) };

    fn next(&mut self) -> Option<Pair<'a>> {
        if self.next >= self.count {
            return None;
        }
        let pair = Pair {
            path: self.store.path(self.next),
            body: self.store.body(self.next),
        };
        // counted by hand: this is the step of an iterator, and a store is asked by numbers
        self.next += 1;
        Some(pair)
    }
}
