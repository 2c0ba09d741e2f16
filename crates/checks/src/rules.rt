// Rules, and the walks that hold each item of an array, or each member of an object, against one.
ghost use Rattle.std.specs.Prelude.{◌≡◌, Bool, List};
ghost use Rattle.syntax.specs.Value.{Value as Spelled};
ghost use Rattle.syntax.specs.Walking.{Member as MemberSpelled};
ghost use Rattle.requirement.specs.Check.{Check as Checked, each, array as array_of, object as object_of, whatever};
ghost use Rattle.walk.specs.Told.{spelled, member_spelled, items_left, members_left};

use crate::single::{Check, few, sure, unlawful};
use walk::{Items, Member, Members, Value};

/// What a value is refused for.
pub trait Rule {
    /// What a value is refused for.
    ghost checked: { Self → Spelled → Checked };

    /// Its first fault, if it has one.
    fn check(&self, value: Value) -> Check
        ensures { result ≡ checked self.now (spelled value.entry) };
}

/// What a member of an object is refused for.
pub trait MemberRule {
    /// What a member is refused for.
    ghost member_checked: { Self → MemberSpelled → Checked };

    /// Its first fault, if it has one.
    fn check_member(&self, member: Member) -> Check
        ensures { result ≡ member_checked self.now (member_spelled member.entry) };
}

/// What an object is refused for: a member, or else the object as a whole, for a gap or a clash.
pub trait ObjectRule: MemberRule {
    /// Whether the members together are fine.
    ghost whole_fits: { Self → List MemberSpelled → Bool };

    /// Whether the members together are fine.
    fn fits(&self, members: Members) -> bool
        ensures { result ≡ whole_fits self.now (members_left members.entry) };
}

// The first fault of an item. Apart from that of a member: what is checked is of another type, and so is the trait.
fn each_item<R: Rule>(rule: &R, items: Items) -> Check
    ensures { result ≡ each (R.checked rule.now) (items_left items.entry) }
{
    for item in items {
        rule.check(item)?;
    }
    Ok(())
}

// The first fault of a member.
fn each_member<R: MemberRule>(rule: &R, members: Members) -> Check
    ensures { result ≡ each (R.member_checked rule.now) (members_left members.entry) }
{
    for member in members {
        rule.check_member(member)?;
    }
    Ok(())
}

/// An array of so many items, each by a rule.
pub fn array<R: Rule>(rule: &R, least: usize, most: usize, value: Value) -> Check
    ensures { result ≡ array_of least most (R.checked rule.now) (spelled value.entry) }
{
    let Some(items) = value.items() else {
        return Err(unlawful(value));
    };
    sure(few(items, least, most), unlawful(value))?;
    each_item(rule, items)
}

/// An object, each member by a rule.
// Apart from `object`: a rule that asks nothing of the whole would be one method more in each.
pub fn members<R: MemberRule>(rule: &R, value: Value) -> Check
    ensures { result ≡ object_of (each (R.member_checked rule.now)) whatever (spelled value.entry) }
{
    match value.members() {
        Some(members) => each_member(rule, members),
        None => Err(unlawful(value)),
    }
}

/// An object, each member by a rule, and then the object as a whole.
pub fn object<R: ObjectRule>(rule: &R, value: Value) -> Check
    ensures { result ≡ object_of (each (R.member_checked rule.now)) (R.whole_fits rule.now) (spelled value.entry) }
{
    let Some(members) = value.members() else {
        return Err(unlawful(value));
    };
    each_member(rule, members)?;
    sure(rule.fits(members), unlawful(value))
}
