// The members of an object, one after the other.
ghost use Rattle.std.specs.Prelude.{◌≡◌, []};
ghost use Rattle.std.specs.Option.{option_map};
ghost use Rattle.syntax.specs.Walking.{members_from, find as find_in};
ghost use Rattle.walk.specs.Told.{spelled, members_left, behind};

use crate::steps::{after, is_at};
use crate::value::Value;
use names::same;
use text::skip;

/// The name of a member: the place of its opening quote, and the bytes between its quotes.
#[derive(Clone, Copy, Debug, PartialEq, Eq)]
pub struct Name<'a> {
    pub place: usize,
    pub bytes: &'a [u8],
}

/// A member of an object.
// no Debug and no comparison: either would go through the whole text
#[derive(Clone, Copy)]
pub struct Member<'a> {
    pub name: Name<'a>,
    pub value: Value<'a>,
}

/// The members that come one after the other from a place of any bytes on, until no comma comes or none is there.
// no Debug and no comparison: either would go through the whole text
#[derive(Clone, Copy)]
pub struct Members<'a> {
    text: &'a [u8],
    next: Option<usize>,
}

// The value behind a colon that comes from `end` on.
pub(crate) fn behind_colon(text: &[u8], end: usize) -> Option<Value<'_>>
    ensures { option_map spelled result ≡ behind text.now end }
{
    let colon = skip(text, end);
    if is_at(text, colon, b':') {
        Value::at(text, colon + 1)
    } else {
        None
    }
}

impl<'a> Members<'a> {
    /// The members from a place on.
    pub fn from(text: &'a [u8], place: usize) -> Members<'a>
        ensures { members_left result ≡ members_from text.now place }
    {
        Members {
            text,
            next: Some(place),
        }
    }

    // by name and no `Default`: here the contract says what is left
    /// No members.
    pub fn none() -> Members<'a>
        ensures { members_left result ≡ [] }
    {
        Members {
            text: &[],
            next: None,
        }
    }

    /// The value of the first member of that name.
    pub fn get(self, name: &[u8]) -> Option<Value<'a>>
        ensures { option_map spelled result ≡ find_in name.now (members_left self.entry) }
    {
        // a `for`, as `find` with a closure over `name` is longer
        for member in self {
            if same(member.name.bytes, name) {
                return Some(member.value);
            }
        }
        None
    }
}

impl<'a> Iterator for Members<'a> {
    ghost use Rattle.std.specs.Iterator.{YieldsFirstBy, item_count};
    ghost use Rattle.walk.specs.Told.{member_spelled, members_left};

    type Item = Member<'a>;

    ghost next_gives = { YieldsFirstBy member_spelled members_left };

    ghost remaining = { item_count members_left };

    #[tactic(auto, using(crate::proofs::Values::no_members, crate::proofs::Values::other_members, crate::proofs::Values::bare_members, crate::proofs::Values::first_member))]
    fn next(&mut self) -> Option<Member<'a>> {
        let start = self.next.take()?;
        let name = Value::at(self.text, start)?;
        let bytes = name.as_string()?;
        let value = behind_colon(self.text, name.end())?;
        self.next = after(self.text, value.end());
        Some(Member {
            name: Name {
                place: name.start(),
                bytes,
            },
            value,
        })
    }
}
