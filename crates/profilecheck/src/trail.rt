// The way from the outermost value of a profile down to a place.
use crate::shown::Shown;
use crate::words::Role;
use std::fmt;
use walk::{Items, Member, Members, Value};

// The most steps from the outermost value to another: an array or object stands inside at most fifteen others.
const DEEPEST: usize = 16;

// A property of a schema, or one nested in a property.
#[derive(Clone, Copy, Debug, PartialEq, Eq)]
pub struct Property<'a> {
    schema: &'a [u8],
    parent: Option<&'a [u8]>,
    name: &'a [u8],
}

impl fmt::Display for Property<'_> {
    fn fmt<W: fmt::Write>(&self, f: &mut fmt::Formatter<W>) -> fmt::Result {
        let schema = Shown(self.schema);
        let name = Shown(self.name);
        match self.parent {
            Some(outer) => {
                let outer = Shown(outer);
                write!(
                    f,
                    "property `{name}` in property `{outer}` of schema `{schema}`"
                )
            }
            None => write!(f, "property `{name}` of schema `{schema}`"),
        }
    }
}

// A part of a profile that is told by the names on the way to it.
#[derive(Clone, Copy, Debug, PartialEq, Eq)]
pub enum Entry<'a> {
    Profile,
    Schema(&'a [u8]),
    Property(Property<'a>),
    Condition(Property<'a>),
}

impl<'a> Entry<'a> {
    // The entry that a value of that role is, under that name within this entry.
    fn inner(self, role: Role, name: &'a [u8]) -> Entry<'a> {
        match (role, self) {
            (Role::Schema, _) => Entry::Schema(name),
            (Role::Property, Entry::Schema(schema)) => Entry::Property(Property {
                schema,
                parent: None,
                name,
            }),
            (Role::NestedProperty, Entry::Property(outer)) => Entry::Property(Property {
                schema: outer.schema,
                parent: Some(outer.name),
                name,
            }),
            (Role::Condition, Entry::Property(property)) => Entry::Condition(property),
            _ => self,
        }
    }
}

impl fmt::Display for Entry<'_> {
    fn fmt<W: fmt::Write>(&self, f: &mut fmt::Formatter<W>) -> fmt::Result {
        match *self {
            Entry::Profile => f.write_str("the profile"),
            Entry::Schema(name) => {
                let name = Shown(name);
                write!(f, "the schema entry `{name}`")
            }
            Entry::Property(property) => write!(f, "the entry of {property}"),
            Entry::Condition(property) => write!(f, "the condition of {property}"),
        }
    }
}

/// What a place of a profile is the place of.
#[derive(Clone, Copy, Debug, PartialEq, Eq)]
pub enum At {
    /// The name of a member.
    Name,
    /// A value, which is the outermost or a member's.
    Value,
    /// An item of an array, by its number from 1.
    Item(usize),
}

/// What stands at a place of a profile: a value, or the name of a member.
// no Debug and no comparison: either would go through the bytes of the profile
#[derive(Clone, Copy)]
pub struct Trail<'a> {
    /// The entry around it.
    pub around: Entry<'a>,
    /// The object or array around it.
    pub holder: Role,
    /// The member's name, or that of the array, of which it is an item.
    pub name: &'a [u8],
    /// The value, or the member's value.
    pub role: Role,
    pub value: Value<'a>,
    pub at: At,
}

impl<'a> Trail<'a> {
    fn outermost(value: Value<'a>) -> Trail<'a> {
        Trail {
            around: Entry::Profile,
            holder: Role::Other,
            name: b"",
            role: Role::Profile,
            value,
            at: At::Value,
        }
    }

    /// The entry that the value is, or else the one around it.
    pub fn entry(self) -> Entry<'a> {
        self.around.inner(self.role, self.name)
    }

    // Whether it has come to the place.
    fn has_come(self, place: usize) -> bool {
        self.at == At::Name || self.value.start() == place
    }

    // On to the member or the item that reaches past the place.
    fn step(self, place: usize) -> Option<Trail<'a>> {
        if let Some(members) = self.value.members() {
            return Some(self.to_member(member_over(members, place)?, place));
        }
        let (number, value) = item_over(self.value.items()?, place)?;
        Some(self.to_item(number, value))
    }

    fn to_member(self, member: Member<'a>, place: usize) -> Trail<'a> {
        let around = self.entry();
        let name = member.name.bytes;
        Trail {
            around,
            holder: self.role,
            name,
            role: self.role.member(name),
            value: member.value,
            at: if member.name.place == place {
                At::Name
            } else {
                At::Value
            },
        }
    }

    fn to_item(self, number: usize, value: Value<'a>) -> Trail<'a> {
        Trail {
            around: self.around,
            holder: self.role,
            name: self.name,
            role: self.role.item(),
            value,
            at: At::Item(number),
        }
    }

    fn is_entry(self) -> bool {
        match self.role {
            Role::Profile | Role::Schema | Role::Property | Role::NestedProperty => true,
            Role::Condition => self.value.members().is_some(),
            _ => false,
        }
    }
}

// The value, in words.
impl fmt::Display for Trail<'_> {
    fn fmt<W: fmt::Write>(&self, f: &mut fmt::Formatter<W>) -> fmt::Result {
        if self.is_entry() {
            let entry = self.entry();
            return write!(f, "{entry}");
        }
        let name = Shown(self.name);
        let around = self.around;
        match self.at {
            At::Item(number) => write!(f, "item {number} of `{name}` in {around}"),
            At::Name | At::Value => write!(f, "`{name}` in {around}"),
        }
    }
}

// The first member that reaches past the place.
fn member_over(members: Members<'_>, place: usize) -> Option<Member<'_>> {
    let mut members = members;
    members.find(|member| place < member.value.end())
}

// The number, from 1, and the value of the first item that reaches past the place.
fn item_over(items: Items<'_>, place: usize) -> Option<(usize, Value<'_>)> {
    // counted by hand: `enumerate` asks for a proof that the count fits
    let mut number: usize = 0;
    for item in items {
        number = number.saturating_add(1);
        if place < item.end() {
            return Some((number, item));
        }
    }
    None
}

/// What stands at the place, if a value or a name begins there.
pub fn follow(text: &[u8], place: usize) -> Option<Trail<'_>> {
    let mut trail = Trail::outermost(Value::at(text, 0)?);
    for _ in 0..=DEEPEST {
        if trail.has_come(place) {
            return Some(trail);
        }
        trail = trail.step(place)?;
    }
    None
}
