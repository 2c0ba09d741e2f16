//! Stores of captures: what every store means, and paths.
#![tactic(auto)]

ghost use Rattle.std.specs.Prelude.{◌≡◌, List, length};
ghost use Rattle.store.specs.Pairs.{Pair, Lawful, path_at, body_at, Finds, OneAnswer, FirstFound, Nearest};
ghost use Rattle.store.specs.Paths.{cuts};

pub mod pairs;
pub mod paths;

use paths::Ancestors;

/// The most pairs that a store has.
pub const MAX_PAIRS: usize = 1_024;

/// The most bytes that a body has.
pub const MAX_BODY_BYTES: usize = 1_048_576;

/// A store means a list of pairs of path and body, in a fixed order. No question changes it.
pub trait Store {
    ghost pairs: { Self → List Pair };

    /// How many pairs there are.
    fn count(&self) -> usize
        ensures { result ≡ length (pairs self.now) };

    /// The path of pair number `n`, empty past the end.
    fn path(&self, n: usize) -> &[u8]
        ensures { result.now ≡ path_at (pairs self.now) n };

    /// The body of pair number `n`, empty past the end.
    fn body(&self, n: usize) -> &[u8]
        ensures { result.now ≡ body_at (pairs self.now) n };

    /// The law of stores: few pairs, lawful paths, no two of them equal, and no large body.
    ghost lawful: { (x : Self) → Lawful (pairs x) };
}

/// A store in which a path can be looked for.
pub trait Search: Store {
    /// The number of the pair that has the path, or none exactly where no pair has it.
    fn find(&self, path: &[u8]) -> Option<usize>
        ensures { Finds (Self.Store.pairs self.now) path.now result }
    {
        (0..self.count()).find(|n| self.path(*n) == path)
    }
}

/// The number of the pair that has the path. The answer does not depend on how a store searches.
pub fn number_of<S: Search>(store: &S, path: &[u8]) -> Option<usize>
    ensures finds { Finds (S.Store.pairs store.now) path.now result }
    ensures one { OneAnswer }
{
    store.find(path)
}

/// The number of the nearest pair above a path: the one that has the longest of the paths above it that the store has.
pub fn nearest<S: Search>(store: &S, path: &[u8]) -> Option<usize>
    ensures first { FirstFound (S.Store.pairs store.now) (cuts path.now) result }
    ensures longest { Nearest (S.Store.pairs store.now) path.now result }
{
    // A loop and not `find_map`: its contract was not enough for the check alone to find these clauses.
    for above in Ancestors::of(path) {
        if let Some(found) = store.find(above) {
            return Some(found);
        }
    }
    None
}
