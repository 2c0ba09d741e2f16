// How many clauses there are. No count goes past the greatest number.
ghost use Rattle.std.specs.Prelude.{◌≡◌, ℕ, length};
ghost use Rattle.syntax.specs.Walking.{Member as MemberSpelled};
ghost use Rattle.requirement.specs.Clause.{clauses as clauses_of};
ghost use Rattle.walk.specs.Told.{spelled, member_spelled, members_left};
ghost use Rattle.terms.specs.Stated.{version_stated};
ghost use Rattle.profile.specs.Counting.{capped, total as total_of, nested_count, property_count, own_count, schema_count};

use terms::{properties, schemas, stated_version};
use walk::{Member, Members, Value};

// Members of one kind, each of which stands for some clauses.
trait Counted {
    ghost number: { MemberSpelled → ℕ };

    fn count(member: Member) -> usize
        ensures { result ≡ number (member_spelled member.entry) };
}

// So many clauses, and those of the members.
fn total<C: Counted>(own: usize, members: Members) -> usize
    ensures { result ≡ total_of C.number own (members_left members.entry) }
{
    let mut count = own;
    for member in members {
        count = count.saturating_add(C::count(member));
    }
    count
}

// A property in a property has one clause.
struct NestedProperty;

impl Counted for NestedProperty {
    ghost number = { nested_count };

    fn count(_: Member) -> usize {
        1
    }
}

// A property has one clause, and those of the properties inside it.
struct Property;

impl Counted for Property {
    ghost number = { property_count };

    fn count(member: Member) -> usize {
        total::<NestedProperty>(1, properties(member.value.members_or_none()))
    }
}

// A schema entry has a clause for its presence, one for its version where it states one, and those of its properties.
struct Schema;

impl Counted for Schema {
    ghost number = { schema_count };

    fn count(member: Member) -> usize {
        let members = member.value.members_or_none();
        total::<Property>(own_clauses(members), properties(members))
    }
}

// The clauses of a schema entry without those of its properties.
#[tactic(auto, using(crate::proofs::Counts::own_two, crate::proofs::Counts::own_one))]
fn own_clauses(members: Members) -> usize
    ensures { result ≡ own_count (version_stated (members_left members.entry)) }
{
    match stated_version(members) {
        Some(_) => 2,
        None => 1,
    }
}

// The clauses of a profile.
#[tactic(auto, using(crate::proofs::Counts::profile_long))]
pub(crate) fn clauses(profile: Value) -> usize
    ensures { result ≡ capped (length (clauses_of (spelled profile.entry))) }
{
    total::<Schema>(0, schemas(profile))
}
