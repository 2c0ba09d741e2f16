// What an entry of a profile says of a property.
ghost use Rattle.std.specs.Prelude.{◌≡◌};
ghost use Rattle.walk.specs.Told.{members_left};
ghost use Rattle.requirement.specs.Clause.{entry_of};

use crate::asked::{Asked, Unstated, string_under};
use crate::listed::Listed;
use crate::parts::Conditions;
use walk::Members;

/// What an entry says of the property of that name, with its conditions.
// no Debug and no comparison: either would go through the bytes of the profile
#[derive(Clone, Copy)]
pub struct Entry<'a> {
    pub name: &'a [u8],
    pub asks: Asked<'a>,
    pub replaced_by: Option<&'a [u8]>,
    pub replaces: Option<&'a [u8]>,
    pub conditions: Conditions<'a>,
}

/// The property in which a nested one stands, and what replaces it.
#[derive(Clone, Copy, Debug, PartialEq, Eq)]
pub struct Parent<'a> {
    pub name: &'a [u8],
    pub replaced_by: Option<&'a [u8]>,
}

impl<'a> Entry<'a> {
    ghost use Rattle.clause.specs.Shown.{entry_shown};

    // What the entry of that name with these members says.
    #[tactic(auto, using(crate::proofs::Readings::each_condition))]
    pub(crate) fn stated(name: &'a [u8], members: Members<'a>) -> Entry<'a>
        ensures is { entry_of (members_left members.entry) ≡ entry_shown result }
        ensures named { result.name ≡ name.entry }
    {
        Entry {
            name,
            asks: Asked::stated(members, Unstated::ENTRY),
            replaced_by: string_under(members, b"ReplacedByProperty"),
            replaces: string_under(members, b"ReplacesProperty"),
            conditions: Listed::under(members, b"ConditionalRequirements"),
        }
    }
}
