// The clauses of a profile: of a schema its presence, its version and its properties, and of a property its nested ones.
ghost use Rattle.std.specs.Prelude.{◌≡◌, [], IfSome};
ghost use Rattle.std.specs.Option.{option_map};
ghost use Rattle.std.specs.List.{slice_get};
ghost use Rattle.syntax.specs.Walking.{find};
ghost use Rattle.walk.specs.Told.{spelled, members_left};
ghost use Rattle.requirement.specs.Clause as r;
ghost use Rattle.requirement.specs.Clause.{quote_of, version_clause};
ghost use Rattle.clause.specs.Shown.{clause_shown};
ghost use Rattle.clause.specs.Left.{clauses_of, Accepted};

use crate::asked::{MANDATORY, level};
use crate::entries::{Entry, Parent};
use crate::parts::{Clause, Demand};
use terms::{properties, schemas, version_at};
use walk::{Member, Members, Value, same};

// The clauses of the nested properties of a property.
#[derive(Clone, Copy)]
struct NestedClauses<'a> {
    schema: &'a [u8],
    parent: Parent<'a>,
    members: Members<'a>,
}

// The clauses of a schema behind that of its presence.
#[derive(Clone, Copy)]
struct SchemaClauses<'a> {
    name: &'a [u8],
    // as long as it is to come
    version: Option<Clause<'a>>,
    // those of the present property, and the properties to come
    nested: Option<NestedClauses<'a>>,
    properties: Members<'a>,
}

/// The clauses of a profile, one after the other.
// no Debug and no comparison: either would go through the bytes of the profile
#[derive(Clone, Copy)]
pub struct Clauses<'a> {
    // those of the present schema, and the schemas to come
    schema: Option<SchemaClauses<'a>>,
    schemas: Members<'a>,
}

// The first member of that name. `Members::get` answers its value alone.
fn member_named<'a>(members: Members<'a>, name: &[u8]) -> Option<Member<'a>>
    ensures value { option_map (λ m. spelled m.value) result ≡ find name.now (members_left members.entry) }
    ensures quote { IfSome result (λ m. m.name.place ≡ quote_of name.now (members_left members.entry)) }
{
    for member in members {
        if same(member.name.bytes, name) {
            return Some(member);
        }
    }
    None
}

// The version clause of the schema with these members, where `MinVersion` is stated.
fn version<'a>(schema: &'a [u8], members: Members<'a>) -> Option<Clause<'a>>
    ensures { version_clause schema.now (members_left members.entry) ≡ option_map clause_shown result }
{
    let stated = member_named(members, b"MinVersion")?;
    Some(Clause {
        schema,
        place: stated.name.place,
        demand: Demand::Version {
            level: level(members, MANDATORY),
            least: version_at(stated.value)?,
        },
    })
}

impl<'a> Iterator for NestedClauses<'a> {
    ghost use Rattle.std.specs.Iterator.{YieldsFirstBy, item_count};
    ghost use Rattle.clause.specs.Left.{nested_left};

    type Item = Clause<'a>;

    ghost next_gives = { YieldsFirstBy clause_shown nested_left };

    ghost remaining = { item_count nested_left };

    fn next(&mut self) -> Option<Clause<'a>> {
        let nested = self.members.next()?;
        Some(Clause {
            schema: self.schema,
            place: nested.name.place,
            demand: Demand::Nested {
                parent: self.parent,
                entry: Entry::stated(nested.name.bytes, nested.value.members_or_none()),
            },
        })
    }
}

impl<'a> SchemaClauses<'a> {
    ghost use Rattle.requirement.specs.Clause.{given, flat, property_clauses, properties as properties_of};
    ghost use Rattle.clause.specs.Left.{schema_left};

    // Those of the schema of that name with these members.
    fn of(name: &'a [u8], members: Members<'a>) -> SchemaClauses<'a>
        ensures { schema_left result ≡ given (version_clause name.now (members_left members.entry)) (flat (property_clauses name.now) (properties_of (members_left members.entry))) }
    {
        SchemaClauses {
            name,
            version: version(name, members),
            nested: None,
            properties: properties(members),
        }
    }
}

impl<'a> Iterator for SchemaClauses<'a> {
    ghost use Rattle.std.specs.Iterator.{YieldsFirstBy, item_count};
    ghost use Rattle.clause.specs.Left.{schema_left};

    type Item = Clause<'a>;

    ghost next_gives = { YieldsFirstBy clause_shown schema_left };

    ghost remaining = { item_count schema_left };

    fn next(&mut self) -> Option<Clause<'a>> {
        if let Some(version) = self.version.take() {
            return Some(version);
        }
        if let Some(nested) = &mut self.nested {
            if let Some(clause) = nested.next() {
                return Some(clause);
            }
        }
        let property = self.properties.next()?;
        let members = property.value.members_or_none();
        let entry = Entry::stated(property.name.bytes, members);
        self.nested = Some(NestedClauses {
            schema: self.name,
            parent: Parent {
                name: property.name.bytes,
                replaced_by: entry.replaced_by,
            },
            members: properties(members),
        });
        Some(Clause {
            schema: self.name,
            place: property.name.place,
            demand: Demand::Property(entry),
        })
    }
}

impl<'a> Clauses<'a> {
    ghost use Rattle.clause.specs.Left.{clauses_left};

    /// The clauses of the profile that begins any bytes; none where no value does.
    #[tactic(auto, using(crate::proofs::Starts::accepted))]
    pub fn of(profile: &'a [u8]) -> Clauses<'a>
        ensures is { clauses_left result ≡ clauses_of profile.now }
        ensures accepted { Accepted profile.now }
    {
        Clauses::of_value(Value::here(profile, 0))
    }

    /// The clauses of the profile with that value.
    pub fn of_value(profile: Value<'a>) -> Clauses<'a>
        ensures { clauses_left result ≡ r.clauses (spelled profile.entry) }
    {
        Clauses {
            schema: None,
            schemas: schemas(profile),
        }
    }
}

impl<'a> Iterator for Clauses<'a> {
    ghost use Rattle.std.specs.Iterator.{YieldsFirstBy, item_count};
    ghost use Rattle.clause.specs.Left.{clauses_left};

    type Item = Clause<'a>;

    ghost next_gives = { YieldsFirstBy clause_shown clauses_left };

    ghost remaining = { item_count clauses_left };

    fn next(&mut self) -> Option<Clause<'a>> {
        if let Some(schema) = &mut self.schema {
            if let Some(clause) = schema.next() {
                return Some(clause);
            }
        }
        let schema = self.schemas.next()?;
        let members = schema.value.members_or_none();
        self.schema = Some(SchemaClauses::of(schema.name.bytes, members));
        Some(Clause {
            schema: schema.name.bytes,
            place: schema.name.place,
            demand: Demand::Presence(level(members, MANDATORY)),
        })
    }
}

/// The clause of that number; none past the end.
pub fn clause(profile: &[u8], number: usize) -> Option<Clause<'_>>
    ensures is { slice_get (clauses_of profile.now) number ≡ option_map clause_shown result }
    ensures accepted { Accepted profile.now }
{
    Clauses::of(profile).nth(number)
}
