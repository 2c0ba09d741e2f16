// A value in lent bytes, by its places.
ghost use Rattle.std.specs.Prelude.{◌≡◌, IfSome, IfOk};
ghost use Rattle.std.specs.List.{between};
ghost use Rattle.std.specs.Option.{option_map, option_copied};
ghost use Rattle.text.specs.Part.{part_of};
ghost use Rattle.walk.specs.Here.{value_here};

use crate::items::Items;
use crate::members::Members;
use crate::numbers::whole;
use syntax::{Fault, Kind};
use text::Part;

/// A value in lent bytes: its kind, the place of its first byte and the place past its last. Where `here` finds none at a place, it takes a number
/// without digits to stand there, which reads as nothing.
// no Debug and no comparison: either would go through the whole text
#[derive(Clone, Copy)]
pub struct Value<'a> {
    text: &'a [u8],
    part: Part,
    ghost told: { part ≡ part_of (value_here text.now part.start) },
}

// The bytes from `start` up to `end`, as far as the text has them.
pub(crate) fn cut(text: &[u8], start: usize, end: usize) -> &[u8]
    ensures { result.now ≡ between start end text.now }
{
    let stop = end.min(text.len());
    if start < stop {
        &text[start..stop]
    } else {
        &[]
    }
}

impl<'a> Value<'a> {
    ghost use Rattle.syntax.specs.Value.{from, to};
    ghost use Rattle.syntax.specs.Contents.{text as text_of, numeral, elements, fields, items as items_of, members as members_of, whole_number};
    ghost use Rattle.syntax.specs.Reading.{reading, value_at};
    ghost use Rattle.syntax.specs.Walking.{Walks};
    ghost use Rattle.text.specs.Part.{kind_of};
    ghost use Rattle.walk.specs.Told.{spelled, outcome_spelled, items_left, members_left};

    /// The value that comes at a place of any bytes, behind white space, if one does in which brackets open at most sixteen deep. Names may be repeated in it.
    #[tactic(auto, using(crate::proofs::Values::told_again, crate::proofs::Values::spelled_again))]
    pub fn at(text: &'a [u8], place: usize) -> Option<Value<'a>>
        ensures is { option_map spelled result ≡ value_at text.now place }
        ensures over { IfSome result (λ v. v.text.now ≡ text.now) }
    {
        let part = text::value(text, place)?;
        Some(Value { text, part })
    }

    /// The value that comes at a place of any bytes; where none does, a number without digits.
    #[tactic(auto, using(crate::proofs::Values::here_read))]
    pub fn here(text: &'a [u8], place: usize) -> Value<'a>
        ensures is { spelled result ≡ value_here text.now place }
        ensures over { result.text.now ≡ text.now }
    {
        match Value::at(text, place) {
            Some(value) => value,
            None => Value::none(text, place),
        }
    }

    // The number without digits.
    #[tactic(auto, using(crate::proofs::Values::told_none))]
    fn none(text: &'a [u8], place: usize) -> Value<'a>
        requires { value_at text.now place ≡ None }
        ensures is { spelled result ≡ value_here text.now place }
        ensures over { result.text.now ≡ text.now }
    {
        Value {
            text,
            part: Part {
                kind: Kind::Number,
                start: place,
                end: place,
            },
        }
    }

    /// The value of a whole text.
    #[tactic(auto, using(crate::proofs::Values::told_whole, crate::proofs::Values::spelled_whole))]
    pub fn read(text: &'a [u8]) -> Result<Value<'a>, Fault>
        ensures is { outcome_spelled result ≡ reading text.now }
        ensures over { IfOk result (λ v. v.text.now ≡ text.now) }
    {
        let part = text::read(text)?;
        Ok(Value { text, part })
    }

    /// The bytes that it stands in.
    pub fn text(self) -> &'a [u8]
        ensures { result.now ≡ self.entry.text.now }
    {
        let Value { text, .. } = self;
        text
    }

    // Its kind and its places.
    pub(crate) fn part(self) -> Part
        ensures { result ≡ part_of (spelled self.entry) }
    {
        let Value { part, .. } = self;
        part
    }

    /// Its kind.
    pub fn kind(self) -> Kind
        ensures { result ≡ kind_of (spelled self.entry) }
    {
        let Part { kind, .. } = self.part;
        kind
    }

    /// The place of its first byte.
    pub fn start(self) -> usize
        ensures { result ≡ from (spelled self.entry) }
    {
        let Part { start, .. } = self.part;
        start
    }

    /// The place past its last byte.
    pub fn end(self) -> usize
        ensures { result ≡ to (spelled self.entry) }
    {
        let Part { end, .. } = self.part;
        end
    }

    /// The bytes between a string's quotes.
    #[tactic(auto, using(crate::proofs::Values::string_within, crate::proofs::Values::string_text, crate::proofs::Values::no_text))]
    pub fn as_string(self) -> Option<&'a [u8]>
        ensures { text_of (spelled self.entry) ≡ option_copied result }
    {
        match self.part.kind {
            Kind::String => Some(cut(self.text, self.part.start + 1, self.part.end - 1)),
            _ => None,
        }
    }

    /// A number's bytes.
    #[tactic(auto, using(crate::proofs::Values::number_digits, crate::proofs::Values::no_numeral))]
    pub fn as_number(self) -> Option<&'a [u8]>
        ensures { numeral (spelled self.entry) ≡ option_copied result }
    {
        match self.part.kind {
            Kind::Number => Some(cut(self.text, self.part.start, self.part.end)),
            _ => None,
        }
    }

    /// A whole number of one to eighteen digits.
    #[tactic(auto, using(crate::proofs::Values::whole_numeral, crate::proofs::Values::no_whole))]
    pub fn as_whole(self) -> Option<i64>
        ensures { result ≡ whole_number (spelled self.entry) }
    {
        whole(self.as_number()?)
    }

    /// The items of an array.
    // Apart from `members`: one function for both would want a trait over two types.
    #[tactic(auto, using(crate::proofs::Values::array_items, crate::proofs::Values::no_elements))]
    pub fn items(self) -> Option<Items<'a>>
        ensures { elements (spelled self.entry) ≡ option_map items_left result }
    {
        match self.part.kind {
            Kind::Array => Some(Items::from(self.text, self.part.start + 1)),
            _ => None,
        }
    }

    /// The members of an object.
    #[tactic(auto, using(crate::proofs::Values::object_members))]
    pub fn members(self) -> Option<Members<'a>>
        ensures is { fields (spelled self.entry) ≡ option_map members_left result }
        ensures walks { Walks }
    {
        match self.part.kind {
            Kind::Object => Some(Members::from(self.text, self.part.start + 1)),
            _ => None,
        }
    }

    /// The items of an array; of any other value none.
    pub fn items_or_none(self) -> Items<'a>
        ensures { items_left result ≡ items_of (spelled self.entry) }
    {
        self.items().unwrap_or(Items::none())
    }

    /// The members of an object; of any other value none.
    pub fn members_or_none(self) -> Members<'a>
        ensures { members_left result ≡ members_of (spelled self.entry) }
    {
        self.members().unwrap_or(Members::none())
    }
}
