// The members of a book's object.
ghost use Rattle.std.specs.Prelude.{◌≡◌, length, nat_le};
ghost use Rattle.walk.specs.Told.{members_left};
ghost use Rattle.book.specs.Listing.{most, unlawful};

use store::MAX_PAIRS;
use store::paths::is_path;
use walk::Members;

// Whether there are no more members than a book has.
pub(crate) fn are_few(members: Members) -> bool
    ensures { result ≡ nat_le (length (members_left members.entry)) most }
{
    members.take(MAX_PAIRS + 1).count() <= MAX_PAIRS
}

// The place of the first name that is no lawful path.
pub(crate) fn first_unlawful(members: Members) -> Option<usize>
    ensures { result ≡ unlawful (members_left members.entry) }
{
    for member in members {
        if !is_path(member.name.bytes) {
            return Some(member.name.place);
        }
    }
    None
}
