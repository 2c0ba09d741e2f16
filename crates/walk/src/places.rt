// Moving about in any bytes by places alone: a value is a part of the text, and an item or a member says where the next one begins.
ghost use Rattle.std.specs.Prelude.{◌≡◌};
ghost use Rattle.std.specs.Option.{option_map};
ghost use Rattle.syntax.specs.Walking.{Walks, item_at, member_at, members_from, find as find_in};
ghost use Rattle.text.specs.Part.{part_of};
ghost use Rattle.walk.specs.Told.{item_told, member_told, letters_of, digits_of, Says, Writes};

pub use crate::found::{Item, Member};
use crate::members::{Members, behind_colon};
use crate::steps::after;
use crate::value::{Value, cut};
use syntax::Kind;
use text::Part;

/// The item at a place of any bytes: the value there, and where the next one begins.
pub fn item(text: &[u8], at: usize) -> Option<Item>
    ensures { result ≡ option_map item_told (item_at text.now at) }
{
    let value = text::value(text, at)?;
    Some(Item {
        value,
        next: after(text, value.end),
    })
}

/// The member at a place of any bytes: its name, quotes and all, its value, and where the next one begins.
#[tactic(auto, using(crate::proofs::Parts::member_none, crate::proofs::Parts::member_other, crate::proofs::Parts::member_bare, crate::proofs::Parts::member_whole, syntax::proofs::Walks::walks))]
pub fn member(text: &[u8], at: usize) -> Option<Member>
    ensures is { result ≡ option_map member_told (member_at text.now at) }
    ensures walks { Walks }
{
    let name = Value::at(text, at)?;
    let Kind::String = name.kind() else {
        return None;
    };
    let value = behind_colon(text, name.end())?;
    Some(Member {
        name: name.part(),
        value: value.part(),
        next: after(text, value.end()),
    })
}

/// The value of the first member of that name among the members from a place of any bytes on.
pub fn find(text: &[u8], at: usize, name: &[u8]) -> Option<Part>
    ensures { result ≡ option_map part_of (find_in name.now (members_from text.now at)) }
{
    let value = Members::from(text, at).get(name)?;
    Some(value.part())
}

/// The bytes between a string's quotes; of any other part those between its first and its last, as far as the text has them.
#[tactic(auto, using(crate::proofs::Parts::no_letters))]
pub fn letters(text: &[u8], part: Part) -> &[u8]
    ensures is { result.now ≡ letters_of text.now part }
    ensures says { Says text.now part result.now }
{
    if part.start < part.end {
        cut(text, part.start + 1, part.end - 1)
    } else {
        &[]
    }
}

/// A number's bytes; of any other part its own, as far as the text has them.
pub fn digits(text: &[u8], part: Part) -> &[u8]
    ensures is { result.now ≡ digits_of text.now part }
    ensures writes { Writes text.now part result.now }
{
    cut(text, part.start, part.end)
}
