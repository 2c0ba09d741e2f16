// The table of a book's pairs, filled in one walk through its object.
ghost use Rattle.std.specs.Prelude.{◌≡◌, ◌≤◌, length, map, take};
ghost use Rattle.std.specs.List.{AllByRecursion};
ghost use Rattle.syntax.specs.Reading.{longest};
ghost use Rattle.walk.specs.Told.{member_spelled, members_left};
ghost use Rattle.book.specs.Listing.{most};
ghost use Rattle.book.specs.Rows.{Ends, Keeps, row_of};

use crate::checking::examine;
use crate::row::Row;
use names::Span;
use store::MAX_PAIRS;
use walk::{Member, Members};

// Where a member's name, between its quotes, and its value stand.
fn row(member: Member) -> Row
    requires { Ends longest (member_spelled member) }
    ensures { result ≡ row_of (member_spelled member.entry) }
{
    let start = member.name.place + 1;
    Row {
        path: Span {
            start: start as u32,
            end: (start + member.name.bytes.len()) as u32,
        },
        body: Span {
            start: member.value.start() as u32,
            end: member.value.end() as u32,
        },
    }
}

// A row for each of the members, from the first row on, and how many there are.
fn tabulate(rows: &mut [Row; MAX_PAIRS], members: Members) -> usize
    requires few { length (members_left members) ≤ most }
    requires ends { AllByRecursion (Ends longest) (members_left members) }
    ensures within { result ≤ length rows.new }
    ensures rows { take result rows.new ≡ map row_of (members_left members.entry) }
{
    let mut count = 0;
    for member in members {
        rows[count] = row(member);
        count += 1;
    }
    count
}

// The rows of a book, from the first on, and how many there are: none where the check refuses the bytes.
pub(crate) fn fill(rows: &mut [Row; MAX_PAIRS], text: &[u8]) -> usize
    ensures within { result ≤ length rows.new }
    ensures keeps { Keeps text.now (take result rows.new) }
{
    match examine(text) {
        Ok(members) => tabulate(rows, members),
        Err(_) => 0,
    }
}
