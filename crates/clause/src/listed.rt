// The items of a list that read as something, one after the other.
ghost use Rattle.std.specs.Prelude.{◌≡◌, [], Option};
ghost use Rattle.std.specs.Option.{option_map};
ghost use Rattle.syntax.specs.Value as syntax;
ghost use Rattle.walk.specs.Told.{spelled};

use std::marker::PhantomData;
use walk::{Items, Members, Value};

/// What a value of a profile may be read as.
pub trait FromValue<'a>: Sized {
    /// What a reading means.
    ghost Meaning: { Type 0 };

    /// What a value reads as, if it does.
    ghost read: { syntax.Value → Option Meaning };

    /// What is meant by what was read.
    ghost shown: { Self → Meaning };

    /// The reading of a value; none where it reads as nothing.
    fn from_value(value: Value<'a>) -> Option<Self>
        ensures { option_map shown result ≡ read (spelled value.entry) };
}

/// The items of a list that read as something, one after the other; the others are passed over.
// no Debug and no comparison: either would go through the bytes of the profile
#[derive(Clone, Copy)]
pub struct Listed<'a, T> {
    items: Items<'a>,
    item: PhantomData<T>,
}

impl<'a, T: FromValue<'a>> Listed<'a, T> {
    ghost use Rattle.syntax.specs.Contents.{items as items_of};
    ghost use Rattle.syntax.specs.Walking.{find};
    ghost use Rattle.walk.specs.Told.{items_left, members_left};
    ghost use Rattle.requirement.specs.Clause.{each_read, items_in};
    ghost use Rattle.clause.specs.Shown.{listed_left};

    /// Those of any items.
    pub fn over(items: Items<'a>) -> Listed<'a, T>
        ensures { listed_left T.read result ≡ each_read T.read (items_left items.entry) }
    {
        Listed {
            items,
            item: PhantomData,
        }
    }

    // Those of an array; of any other value none.
    pub(crate) fn of(value: Value<'a>) -> Listed<'a, T>
        ensures { listed_left T.read result ≡ each_read T.read (items_of (spelled value.entry)) }
    {
        Listed::over(value.items_or_none())
    }

    // Those under a name; where nothing stands under it none.
    pub(crate) fn under(members: Members<'a>, name: &[u8]) -> Listed<'a, T>
        ensures { listed_left T.read result ≡ each_read T.read (items_in (find name.now (members_left members.entry))) }
    {
        match members.get(name) {
            Some(value) => Listed::of(value),
            None => Listed::none(),
        }
    }

    // None.
    pub(crate) fn none() -> Listed<'a, T>
        ensures { listed_left T.read result ≡ [] }
    {
        Listed::over(Items::none())
    }
}

impl<'a, T: FromValue<'a>> Iterator for Listed<'a, T> {
    ghost use Rattle.std.specs.Iterator.{YieldsFirstBy, item_count};
    ghost use Rattle.clause.specs.Shown.{listed_left};

    type Item = T;

    ghost next_gives = { YieldsFirstBy T.shown (listed_left T.read) };

    ghost remaining = { item_count (listed_left T.read) };

    fn next(&mut self) -> Option<T> {
        // No `for`: of `&mut self.items` too little would be known where it is left early.
        while let Some(value) = self.items.next() {
            if let Some(read) = T::from_value(value) {
                return Some(read);
            }
        }
        None
    }
}
