// What is wrong at the place of a refusal, in words.
use crate::gaps::{Gap, first_gap};
use crate::shown::Shown;
use crate::spot::Spot;
use crate::trail::{At, Trail, follow};
use crate::words::Role;
use requirement::ProfileFault;
use std::alloc::{AllocError, Global};
use std::fmt;
use text::{Cause, Fault};

// What is said of a refusal.
#[derive(Drop)]
enum Saying<'a> {
    Plain(&'static str),
    RepeatedName(&'a [u8]),
    Gap(Trail<'a>, Gap<'a>),
    // With what is accepted in its place, as those below.
    Unwanted(Trail<'a>, &'static str),
    NoString(Trail<'a>, &'static str),
    OtherString(Trail<'a>, &'a [u8], &'static str),
    OtherMember(Trail<'a>, &'static str),
    SlashedName(Trail<'a>),
}

impl fmt::Display for Saying<'_> {
    fn fmt<W: fmt::Write>(&self, f: &mut fmt::Formatter<W>) -> fmt::Result {
        match *self {
            Saying::Plain(words) => f.write_str(words),
            Saying::RepeatedName(name) => {
                let name = Shown(name);
                write!(f, "the name `{name}` stands twice in its object")
            }
            Saying::Gap(trail, gap) => write!(f, "{trail} {gap}"),
            Saying::Unwanted(trail, wanted) => write!(f, "{trail} wants {wanted}"),
            Saying::NoString(trail, strings) => {
                write!(f, "{trail} wants a string; accepted are {strings}")
            }
            Saying::OtherString(trail, string, strings) => {
                let string = Shown(string);
                write!(f, "{trail} is \"{string}\"; accepted are {strings}")
            }
            Saying::OtherMember(trail, members) => {
                let name = Shown(trail.name);
                let around = trail.around;
                write!(
                    f,
                    "`{name}` is no member of {around}; accepted are {members}"
                )
            }
            Saying::SlashedName(trail) => {
                let name = Shown(trail.name);
                let around = trail.around;
                write!(
                    f,
                    "`{name}` in `PropertyRequirements` of {around} is no property name; accepted are those that do not begin with `/`"
                )
            }
        }
    }
}

const UNKNOWN: Saying<'static> = Saying::Plain("this is not accepted here");

/// The line that explains why a text is no profile.
pub fn explain(heap: Global, text: &[u8], fault: ProfileFault) -> Result<String, AllocError> {
    let (place, saying) = match fault {
        ProfileFault::Text(fault) => (fault.place, of_text(text, fault)),
        ProfileFault::Unlawful(place) => (place, of_value(text, place)),
        ProfileFault::Unnamed(place) => (place, of_quote(text, place)),
        ProfileFault::TooMany => (0, Saying::Plain("the profile has more than 1,024 clauses")),
    };
    let spot = Spot::at(text, place);
    format!(in heap; "{spot}: {saying}")
}

// A text fault.
fn of_text(text: &[u8], Fault { cause, place }: Fault) -> Saying<'_> {
    match cause {
        Cause::TooLong => Saying::Plain("the text is longer than 1,048,576 bytes"),
        Cause::Malformed if place >= text.len() => Saying::Plain("the text ends early"),
        Cause::Malformed => Saying::Plain("the text is no JSON from here on"),
        Cause::TooDeep => Saying::Plain(
            "an array or object opens here inside sixteen others; at most fifteen are accepted",
        ),
        Cause::RepeatedName => Saying::RepeatedName(name_before(text, place)),
    }
}

// The bytes of the name whose closing quote stands at the place. The quote that opens it has no backslash before it, and each quote between has one.
fn name_before(text: &[u8], place: usize) -> &[u8] {
    let end = place.min(text.len());
    // by place: each quote is looked at with the byte before it
    for i in (0..end).rev() {
        if text[i] == b'"' && (i == 0 || text[i - 1] != b'\\') {
            return &text[i + 1..end];
        }
    }
    &text[0..end]
}

// A value of the wrong kind or range, or an object with a gap or a clash.
fn of_value(text: &[u8], place: usize) -> Saying<'_> {
    let Some(trail) = follow(text, place) else {
        return UNKNOWN;
    };
    if let Some(members) = trail.value.members()
        && let Some(gap) = first_gap(trail.role, members)
    {
        return Saying::Gap(trail, gap);
    }
    if let Some(strings) = trail.role.strings() {
        return Saying::NoString(trail, strings);
    }
    match trail.role.wanted() {
        Some(wanted) => Saying::Unwanted(trail, wanted),
        None => UNKNOWN,
    }
}

// An unnamed member or word, or the name of a property that begins with a slash.
fn of_quote(text: &[u8], place: usize) -> Saying<'_> {
    match follow(text, place) {
        Some(trail) if trail.at == At::Name => of_name(trail),
        Some(trail) => of_string(trail),
        None => UNKNOWN,
    }
}

// The name of a member.
fn of_name(trail: Trail<'_>) -> Saying<'_> {
    if matches!(trail.holder, Role::Properties | Role::NestedProperties) {
        return Saying::SlashedName(trail);
    }
    match trail.holder.members() {
        Some(members) => Saying::OtherMember(trail, members),
        None => UNKNOWN,
    }
}

// A string that is a value.
fn of_string(trail: Trail<'_>) -> Saying<'_> {
    match (trail.value.as_string(), trail.role.strings()) {
        (Some(string), Some(strings)) => Saying::OtherString(trail, string, strings),
        _ => UNKNOWN,
    }
}
