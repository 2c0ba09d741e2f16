// Why bytes are no book.
ghost use Rattle.std.specs.Prelude.{◌≡◌};
ghost use Rattle.book.specs.Refusals.{told};
ghost use Rattle.book.specs.declared.refusal.BookRefusal.TheVariants.{Text as TextCase};

use refused::Refused;
use syntax::Fault;

/// A refusal of a book, by the first rule that it breaks: the fault of a text that is none, carried whole; a text that spells no object; more members
/// than a store may have; the place of the first name that is no lawful path.
#[derive(Clone, Copy, Debug, PartialEq, Eq)]
pub enum BookRefusal {
    Text(Fault),
    NoObject,
    TooMany,
    UnlawfulPath(usize),
}

impl From<Fault> for BookRefusal {
    ghost from_gives = { λ e r. r ≡ TextCase e };

    fn from(fault: Fault) -> BookRefusal {
        BookRefusal::Text(fault)
    }
}

impl From<BookRefusal> for Refused {
    ghost from_gives = { λ e r. r ≡ told e };

    fn from(refusal: BookRefusal) -> Refused {
        let (number, cause, place) = match refusal {
            BookRefusal::Text(Fault { cause, place }) => (9, cause.number(), place),
            BookRefusal::NoObject => (10, 0, 0),
            BookRefusal::TooMany => (3, 0, 0),
            BookRefusal::UnlawfulPath(place) => (5, 0, place),
        };
        Refused {
            number,
            cause,
            place,
        }
    }
}
