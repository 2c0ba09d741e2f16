//! A heap sort in place. It takes some n log n comparisons whatever the names are, where a text can be made for which the library's sort takes
//! several times as many. That the names come to lie in order is not stated here: the library's sort, which goes once over names in order, states it.
ghost use Rattle.std.specs.Prelude.{◌/◌, ◌<◌, ◌≤◌, length};
ghost use Rattle.std.specs.List.Sorted.{IsPermutation};

use crate::Span;
use crate::compare::ahead;

// The greater of the one or two names below the name at a place of the heap.
fn child(text: &[u8], names: &[Span], at: usize, end: usize) -> usize
    requires within { (at < end / 2) × (end ≤ length names.now) }
    ensures further { (at < result) × (result < end) }
{
    let left = 2 * at + 1;
    if left + 1 < end && ahead(text, names[left], names[left + 1]) {
        left + 1
    } else {
        left
    }
}

// Moves the name at the root of a heap down to a leaf, past the greater names, and then up to its place.
fn sift(text: &[u8], names: &mut [Span], root: usize, end: usize)
    requires within { end ≤ length names.old }
    ensures rows { IsPermutation names.old names.new }
{
    let mut at = root;
    'down: while at < end / 2 {
        let next = child(text, names, at, end);
        names.swap(at, next);
        at = next;
    }
    'up: while root < at {
        let parent = (at - 1) / 2;
        if !ahead(text, names[parent], names[at]) {
            return;
        }
        names.swap(parent, at);
        at = parent;
    }
}

// Sorts the names.
pub(crate) fn sort(text: &[u8], names: &mut [Span])
    ensures rows { IsPermutation names.old names.new }
{
    'build: for root in (0..names.len() / 2).rev() {
        sift(text, names, root, names.len());
    }
    'take: for end in (1..names.len()).rev() {
        names.swap(0, end);
        sift(text, names, 0, end);
    }
}
