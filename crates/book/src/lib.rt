//! A search store over a lent text, whose object has the paths for names and the bodies for values.
#![tactic(auto)]

ghost use Rattle.std.specs.Prelude.{◌≡◌, ◌≤◌, length, take, drop};
ghost use Rattle.store.specs.Pairs.{Lawful, path_at, body_at};
ghost use Rattle.book.specs.Listing.{opened, path_place, body_place};
ghost use Rattle.book.specs.Laws.{Passes, LawfulStore};
ghost use Rattle.book.specs.Rows.{Keeps};

mod checking;
mod members;
mod refusal;
mod row;
mod table;

pub use checking::check;
pub use refusal::BookRefusal;
use row::Row;
use store::{MAX_PAIRS, Search, Store};
use table::fill;

/// An open book: its bytes, and the places of its paths and bodies.
#[derive(Clone, Copy)]
pub struct Book<'a> {
    text: &'a [u8],
    // An array and how many of its rows are used: a book is `Copy`, which an `ArrayVec` is not.
    rows: [Row; MAX_PAIRS],
    count: usize,
    ghost in_range: { count ≤ length rows },
    ghost keeps: { Keeps text.now (take count rows) },
    ghost lawful: { Lawful (opened text.now) },
}

/// The store over a book, which has no pairs where the check refuses the bytes.
pub fn open<'a>(text: &'a [u8]) -> Book<'a>
    ensures over { result.text.now ≡ text.now }
    ensures passes { Passes }
    ensures lawful { LawfulStore }
{
    let mut rows: [Row; MAX_PAIRS] = Default::default();
    let count = fill(&mut rows, text);
    Book { text, rows, count }
}

impl<'a> Book<'a> {
    // The rows that are used.
    fn rows(&self) -> &[Row]
        ensures { result.now ≡ take self.now.count self.now.rows }
    {
        &self.rows[..self.count]
    }
}

impl<'a> Store for Book<'a> {
    ghost pairs = { λ b. opened b.text.now };

    fn count(&self) -> usize {
        self.count
    }

    // Apart from `body`, as the trait has it: one function for both would be told the part by a closure, and be no plainer.
    fn path(&self, n: usize) -> &[u8]
        ensures contents { result.now ≡ path_at (opened self.now.text.now) n }
        ensures place { result.now ≡ take (length result.now) (drop (path_place self.now.text.now n) self.now.text.now) }
    {
        match self.rows().get(n) {
            Some(row) => &self.text[row.path.start as usize..row.path.end as usize],
            None => &[],
        }
    }

    fn body(&self, n: usize) -> &[u8]
        ensures contents { result.now ≡ body_at (opened self.now.text.now) n }
        ensures place { result.now ≡ take (length result.now) (drop (body_place self.now.text.now n) self.now.text.now) }
    {
        match self.rows().get(n) {
            Some(row) => &self.text[row.body.start as usize..row.body.end as usize],
            None => &[],
        }
    }

    ghost lawful = { λ b. b.lawful };
}

impl<'a> Search for Book<'a> {}
