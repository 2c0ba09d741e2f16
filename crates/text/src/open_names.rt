// The names of the objects that stand open while a value is read, those of the innermost object last.
ghost use Rattle.std.specs.Prelude.{◌≡◌, ◌^◌, ◌<◌, ℕ, List, [], Bool, true, false, length, take, drop};
ghost use Rattle.names.specs.declared.span.Span.{Span};
ghost use Rattle.names.specs.Repeats.{FirstRepeat};
ghost use Rattle.text.specs.Rows.{noted};

use arrayvec::ArrayVec;
use names::{Span, first_repeat};

// What becomes of the names that are read: they are kept in memory of a fixed size, or not at all.
pub(crate) trait OpenNames {
    // Whether names are compared, how many of them fit, and those that are kept.
    ghost distinct: { Bool };

    ghost capacity: { ℕ };

    ghost kept: { Self → List Span };

    fn count(&self) -> usize
        ensures { result ≡ length (kept self.now) };

    // Adds the name with its quotes at `start` and `end`.
    fn note(&mut self, start: usize, end: usize)
        requires room { distinct ≡ true → length (kept self.old) < capacity }
        requires places { distinct ≡ true → (start < 2 ^ 32) × (end < 2 ^ 32) }
        ensures { kept self.new ≡ noted distinct (kept self.old) start end };

    // Takes off the names past the first `mark`, those of an object that ends, and answers which of them is the first that repeats an earlier one.
    fn close(&mut self, text: &[u8], mark: usize) -> Option<Span>
        ensures first { FirstRepeat text.now (drop mark (kept self.old)) result }
        ensures rest { kept self.new ≡ take mark (kept self.old) };
}

// Names are kept and compared.
impl<const ROWS: usize> OpenNames for ArrayVec<Span, ROWS> {
    ghost distinct = { true };

    ghost capacity = { ROWS };

    ghost kept = { λ names. names.items };

    fn count(&self) -> usize {
        self.len()
    }

    fn note(&mut self, start: usize, end: usize) {
        self.push(Span {
            start: start as u32,
            end: end as u32,
        });
    }

    fn close(&mut self, text: &[u8], mark: usize) -> Option<Span> {
        if self.len() <= mark {
            return None;
        }
        let first = first_repeat(text, &mut self.as_mut_slice()[mark..]);
        self.truncate(mark);
        first
    }
}

// Names may be repeated, and none is kept.
#[derive(Drop)]
pub(crate) struct Unchecked;

impl OpenNames for Unchecked {
    ghost distinct = { false };

    ghost capacity = { 0 };

    ghost kept = { λ _. [] };

    fn count(&self) -> usize {
        0
    }

    fn note(&mut self, _start: usize, _end: usize) {}

    fn close(&mut self, _text: &[u8], _mark: usize) -> Option<Span> {
        None
    }
}
