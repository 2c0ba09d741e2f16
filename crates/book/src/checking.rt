// The check of a whole book.
ghost use Rattle.std.specs.Prelude.{◌≡◌};
ghost use Rattle.book.specs.Listing.{listing, checked};
ghost use Rattle.book.specs.Laws.{Passes, Tells};
ghost use Rattle.book.specs.Rows.{Examined};

use crate::members::{are_few, first_unlawful};
use crate::refusal::BookRefusal;
use walk::{Members, Value};

// The members of a book, or the first rule that it breaks.
pub(crate) fn examine(text: &[u8]) -> Result<Members<'_>, BookRefusal>
    ensures { Examined text.now result }
{
    let Some(members) = Value::read(text)?.members() else {
        return Err(BookRefusal::NoObject);
    };
    if !are_few(members) {
        return Err(BookRefusal::TooMany);
    }
    match first_unlawful(members) {
        Some(place) => Err(BookRefusal::UnlawfulPath(place)),
        None => Ok(members),
    }
}

/// Whether the bytes are a book, and if not, the first rule that they break.
pub fn check(text: &[u8]) -> Result<(), BookRefusal>
    ensures is { result ≡ checked (listing text.now) }
    ensures passes { Passes }
    ensures tells { Tells }
{
    examine(text).map(|_| ())
}
