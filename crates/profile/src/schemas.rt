// Schema entries, and the profile around them.
ghost use Rattle.std.specs.Prelude.{◌≡◌};
ghost use Rattle.requirement.specs.Check.{schema_member, resources_member, profile_member, profile as profile_checked};
ghost use Rattle.walk.specs.Told.{spelled};

use crate::entries::{Entry, FirstLevel, property_map};
use checks::{Check, MemberRule, level, members, version};
use requirement::{ProfileFault, SchemaMember};
use terms::{SchemaNames, Words};
use walk::{Member, Value, same};

// The members of a schema entry.
#[derive(Clone, Copy)]
struct Schema;

impl MemberRule for Schema {
    ghost member_checked = { λ _. schema_member };

    fn check_member(&self, member: Member) -> Check {
        let value = member.value;
        match SchemaNames::meaning(member.name.bytes) {
            Some(SchemaMember::MinVersion) => version(value),
            Some(SchemaMember::ReadRequirement) => level(value),
            Some(SchemaMember::PropertyRequirements) => property_map(Entry(FirstLevel), value),
            Some(SchemaMember::Skipped) => Ok(()),
            None => Err(ProfileFault::Unnamed(member.name.place)),
        }
    }
}

// The schema entries, whatever their names.
#[derive(Clone, Copy)]
struct Resources;

impl MemberRule for Resources {
    ghost member_checked = { λ _. resources_member };

    fn check_member(&self, member: Member) -> Check {
        members(&Schema, member.value)
    }
}

// The members of a profile: what stands beside `Resources` is skipped.
#[derive(Clone, Copy)]
struct Profile;

impl MemberRule for Profile {
    ghost member_checked = { λ _. profile_member };

    fn check_member(&self, member: Member) -> Check {
        if same(member.name.bytes, b"Resources") {
            members(&Resources, member.value)
        } else {
            Ok(())
        }
    }
}

// A profile.
pub(crate) fn check(value: Value) -> Check
    ensures { result ≡ profile_checked (spelled value.entry) }
{
    members(&Profile, value)
}
