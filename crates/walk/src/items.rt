// The items of an array, one after the other.
ghost use Rattle.std.specs.Prelude.{◌≡◌, []};

use crate::steps::after;
use crate::value::Value;

// Apart from `Members`, which has the same fields: what comes is of another type, and one type for both would be told which by a parameter.
/// The items that come one after the other from a place of any bytes on, until no comma comes or none is there.
// no Debug and no comparison: either would go through the whole text
#[derive(Clone, Copy)]
pub struct Items<'a> {
    text: &'a [u8],
    next: Option<usize>,
}

impl<'a> Items<'a> {
    ghost use Rattle.syntax.specs.Walking.{items_from};
    ghost use Rattle.walk.specs.Told.{items_left};

    /// The items from a place on.
    pub fn from(text: &'a [u8], place: usize) -> Items<'a>
        ensures { items_left result ≡ items_from text.now place }
    {
        Items {
            text,
            next: Some(place),
        }
    }

    // by name and no `Default`: here the contract says what is left
    /// No items.
    pub fn none() -> Items<'a>
        ensures { items_left result ≡ [] }
    {
        Items {
            text: &[],
            next: None,
        }
    }
}

impl<'a> Iterator for Items<'a> {
    ghost use Rattle.std.specs.Iterator.{YieldsFirstBy, item_count};
    ghost use Rattle.walk.specs.Told.{spelled, items_left};

    type Item = Value<'a>;

    ghost next_gives = { YieldsFirstBy spelled items_left };

    ghost remaining = { item_count items_left };

    #[tactic(auto, using(crate::proofs::Values::no_items, crate::proofs::Values::first_item))]
    fn next(&mut self) -> Option<Value<'a>> {
        let start = self.next.take()?;
        let value = Value::at(self.text, start)?;
        self.next = after(self.text, value.end());
        Some(value)
    }
}
