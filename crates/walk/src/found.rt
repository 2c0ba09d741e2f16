// What is found at a place, told by its places.
use text::Part;

/// An item of an array, and where the next one begins, if one does.
#[derive(Clone, Copy)]
pub struct Item {
    pub value: Part,
    pub next: Option<usize>,
}

/// A member of an object, and where the next one begins, if one does.
#[derive(Clone, Copy)]
pub struct Member {
    pub name: Part,
    pub value: Part,
    pub next: Option<usize>,
}
