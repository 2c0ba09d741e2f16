// Which name of an object is the first that repeats an earlier one.
#![tactic(auto)]

mod compare;
mod heap;
mod span;

ghost use Rattle.names.specs.Repeats.{Again, FirstRepeat};
ghost use Rattle.names.specs.Order.{IsInOrder, sooner};
ghost use Rattle.names.specs.declared.span.Span.{Span};
ghost use Rattle.std.specs.Prelude.{◌≡◌, Decides};
ghost use Rattle.std.specs.List.{ContainsAt};
ghost use Rattle.std.specs.List.Sorted.{IsPermutation};

pub use compare::same;
use compare::{bytes, order};
pub use span::Span;

// So many names are compared each with each.
const FEW: usize = 16;

// Whether a name has the bytes of another and begins behind it.
fn repeats(text: &[u8], name: Span, other: Span) -> bool
    ensures { Decides result (Again text.now other name) }
{
    other.start < name.start && same(bytes(text, other), bytes(text, name))
}

// The one that ends first.
fn sooner(found: Option<Span>, name: Span) -> Span
    ensures { result ≡ sooner found name }
{
    found.filter(|found| found.end <= name.end).unwrap_or(name)
}

// Of names in order, the one that repeats an earlier name and ends first. Some such name stands right behind one that it repeats.
fn first_beside(text: &[u8], names: &[Span]) -> Option<Span>
    requires { IsInOrder text.now names.now }
    ensures { FirstRepeat text.now names.now result }
{
    let mut first: Option<Span> = None;
    for [left, name] in names.array_windows::<2>() {
        if repeats(text, *name, *left) {
            first = Some(sooner(first, *name));
        }
    }
    first
}

// Whether a name repeats one of some names.
fn repeats_any(text: &[u8], name: Span, names: &[Span]) -> bool
    ensures { Decides result ((other : Span) × ContainsAt names.now other × Again text.now other name) }
{
    for other in names {
        if repeats(text, name, *other) {
            return true;
        }
    }
    false
}

// Of any names, the one that repeats an earlier name and ends first: each is compared with each.
fn first_of_few(text: &[u8], names: &[Span]) -> Option<Span>
    ensures { FirstRepeat text.now names.now result }
{
    let mut first: Option<Span> = None;
    for name in names {
        if repeats_any(text, *name, names) {
            first = Some(sooner(first, *name));
        }
    }
    first
}

// Sorts names. Those that do not lie in order are put there first, so that no text leads the library's sort to its longest way.
fn put_in_order(text: &[u8], names: &mut [Span])
    ensures rows { IsPermutation names.old names.new }
    ensures sorted { IsInOrder text.now names.new }
{
    if !names.is_sorted_by(|a, b| order(text, *a, *b).is_le()) {
        heap::sort(text, names);
    }
    names.sort_unstable_by(|a, b| order(text, *a, *b));
}

/// The first name that repeats an earlier one: of the names that do, the one whose closing quote stands first. The rows may change places.
///
/// Of n rows it makes about n log n comparisons.
pub fn first_repeat(text: &[u8], names: &mut [Span]) -> Option<Span>
    ensures first { FirstRepeat text.now names.old result }
    ensures rows { IsPermutation names.old names.new }
{
    if names.len() <= FEW {
        return first_of_few(text, names);
    }
    put_in_order(text, names);
    first_beside(text, names)
}
