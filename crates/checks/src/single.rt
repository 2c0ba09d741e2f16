// Values by themselves.
ghost use Rattle.std.specs.Prelude.{◌≡◌, ◌&&◌, None, Some, IfOk, IfErr, is_some, length, nat_le};
ghost use Rattle.syntax.specs.Value.{from};
ghost use Rattle.syntax.specs.Contents.{text as text_of};
ghost use Rattle.requirement.specs.declared.fault.ProfileFault.TheVariants.{Unlawful, Unnamed};
ghost use Rattle.requirement.specs.Words.{level_words, operator_words, test_words, count as count_of, version as version_of};
ghost use Rattle.requirement.specs.Check.{sure as sure_of, want, string, word as word_of, property as property_checked};
ghost use Rattle.walk.specs.Told.{spelled, items_left};

use requirement::ProfileFault;
use terms::{LevelWords, OperatorWords, TestWords, Words, property_name, version_at};
use walk::{Items, Value};

/// Fine, or the first fault.
pub type Check = Result<(), ProfileFault>;

/// Fine where something holds; else the fault.
pub fn sure(holds: bool, fault: ProfileFault) -> Check
    ensures { result ≡ sure_of holds fault }
{
    if holds { Ok(()) } else { Err(fault) }
}

/// The fault of a value of the wrong kind or out of range, or of an object with a gap or a clash.
pub fn unlawful(value: Value) -> ProfileFault
    ensures { result ≡ Unlawful (from (spelled value.entry)) }
{
    ProfileFault::Unlawful(value.start())
}

// The fault of a word that the rules do not have.
fn unnamed(value: Value) -> ProfileFault
    ensures { result ≡ Unnamed (from (spelled value.entry)) }
{
    ProfileFault::Unnamed(value.start())
}

/// Whether at least, and at most, so many items come.
// two numbers, as the rules and the definition have them: a range would be taken apart again
pub fn few(items: Items, least: usize, most: usize) -> bool
    ensures { result ≡ (nat_le least (length (items_left items.entry)) && nat_le (length (items_left items.entry)) most) }
{
    // Counted by hand: `count` would go on past the most.
    let mut count = 0;
    for _ in items {
        if count == most {
            return false;
        }
        count += 1;
    }
    least <= count
}

// The letters of a string.
fn letters(value: Value<'_>) -> Result<&[u8], ProfileFault>
    ensures string { IfOk result (λ s. text_of (spelled value.entry) ≡ Some s.now) }
    ensures other { IfErr result (λ f. (text_of (spelled value.entry) ≡ None) × (f ≡ Unlawful (from (spelled value.entry)))) }
{
    value.as_string().ok_or(unlawful(value))
}

// A word of a list.
fn word<W: Words>(value: Value) -> Check
    ensures { result ≡ string (λ s. is_some (W.meaning_of s)) (spelled value.entry) }
{
    sure(W::meaning(letters(value)?).is_some(), unnamed(value))
}

/// A level word.
pub fn level(value: Value) -> Check
    ensures { result ≡ word_of level_words (spelled value.entry) }
{
    word::<LevelWords>(value)
}

/// The word of a comparison.
pub fn operator(value: Value) -> Check
    ensures { result ≡ word_of operator_words (spelled value.entry) }
{
    word::<OperatorWords>(value)
}

/// The word of a test.
pub fn test(value: Value) -> Check
    ensures { result ≡ word_of test_words (spelled value.entry) }
{
    word::<TestWords>(value)
}

/// The name of a property.
pub fn property(value: Value) -> Check
    ensures { result ≡ property_checked (spelled value.entry) }
{
    sure(property_name(letters(value)?), unnamed(value))
}

/// A count.
pub fn count(value: Value) -> Check
    ensures { result ≡ want count_of (spelled value.entry) }
{
    sure(terms::count(value).is_some(), unlawful(value))
}

/// A version.
pub fn version(value: Value) -> Check
    ensures { result ≡ want version_of (spelled value.entry) }
{
    sure(version_at(value).is_some(), unlawful(value))
}
