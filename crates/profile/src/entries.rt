// Property entries, of both levels.
ghost use Rattle.std.specs.Prelude.{◌≡◌, ℕ, List, Option};
ghost use Rattle.syntax.specs.Value.{Value as Spelled};
ghost use Rattle.requirement.specs.declared.words.EntryMember.{EntryMember as EntryMemberOf};
ghost use Rattle.requirement.specs.Check.{Check as Checked, skipped, named, each, object as object_of, entry_part, nested_name, entry_name, nested_entry, property_member, property_map as property_map_of, comparison_fits as fits_of};
ghost use Rattle.walk.specs.Told.{spelled};

use checks::{
    Check, MemberRule, ObjectRule, Rule, common_part, comparison_fits, conditions, members, object,
    property, sure,
};
use requirement::{EntryMember, ProfileFault};
use terms::{EntryNames, NestedNames, Words, property_name};
use walk::{Member, Members, Value};

// The members of an object of entries by property name.
#[derive(Clone, Copy)]
struct PropertyMap<R>(R);

impl<R: Rule> MemberRule for PropertyMap<R> {
    ghost member_checked = { λ m. property_member (R.checked m.0) };

    fn check_member(&self, member: Member) -> Check {
        sure(
            property_name(member.name.bytes),
            ProfileFault::Unnamed(member.name.place),
        )?;
        self.0.check(member.value)
    }
}

// Entries by property name.
pub(crate) fn property_map<R: Rule + Copy>(entry: R, value: Value) -> Check
    ensures { result ≡ property_map_of (R.checked entry) (spelled value.entry) }
{
    members(&PropertyMap(entry), value)
}

// How deep property entries stand.
pub(crate) trait Depth {
    // What the names of an entry's members stand for.
    ghost name_of: { Self → List ℕ → Option EntryMemberOf };

    // What the properties inside an entry are refused for.
    ghost inside: { Self → Spelled → Checked };

    fn name(&self, name: &[u8]) -> Option<EntryMember>
        ensures { result ≡ name_of self.now name.now };

    fn check_inside(&self, value: Value) -> Check
        ensures { result ≡ inside self.now (spelled value.entry) };
}

// The properties of a schema: each may have properties inside.
#[derive(Clone, Copy)]
pub(crate) struct FirstLevel;

impl Depth for FirstLevel {
    ghost name_of = { λ _. entry_name };

    ghost inside = { λ _. property_map_of nested_entry };

    fn name(&self, name: &[u8]) -> Option<EntryMember> {
        EntryNames::meaning(name)
    }

    fn check_inside(&self, value: Value) -> Check {
        property_map(Entry(Nested), value)
    }
}

// The properties inside a property, which have none inside.
#[derive(Clone, Copy)]
struct Nested;

impl Depth for Nested {
    ghost name_of = { λ _. nested_name };

    ghost inside = { λ _. skipped };

    fn name(&self, name: &[u8]) -> Option<EntryMember> {
        NestedNames::meaning(name)
    }

    fn check_inside(&self, _: Value) -> Check {
        Ok(())
    }
}

// A property entry of a level.
#[derive(Clone, Copy)]
pub(crate) struct Entry<L>(pub L);

impl<L: Depth> MemberRule for Entry<L> {
    ghost member_checked = { λ e. named (L.name_of e.0) (entry_part (L.inside e.0)) };

    fn check_member(&self, member: Member) -> Check {
        let value = member.value;
        match self.0.name(member.name.bytes) {
            Some(EntryMember::Common(common)) => common_part(common, value),
            Some(EntryMember::ReplacedByProperty | EntryMember::ReplacesProperty) => {
                property(value)
            }
            Some(EntryMember::ConditionalRequirements) => conditions(value),
            Some(EntryMember::PropertyRequirements) => self.0.check_inside(value),
            None => Err(ProfileFault::Unnamed(member.name.place)),
        }
    }
}

impl<L: Depth> ObjectRule for Entry<L> {
    ghost whole_fits = { λ _. fits_of };

    fn fits(&self, members: Members) -> bool {
        comparison_fits(members)
    }
}

impl<L: Depth> Rule for Entry<L> {
    ghost checked = { λ e. object_of (each (named (L.name_of e.0) (entry_part (L.inside e.0)))) fits_of };

    fn check(&self, value: Value) -> Check {
        object(self, value)
    }
}
