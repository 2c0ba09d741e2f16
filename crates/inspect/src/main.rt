// Inspects the captures in `captures.cap` by the profiles in `library.json`, both in the working folder. Until judging stands it checks both
// files, reads every profile, and says how many profiles, clauses and captures there are, or prints the line of the first refusal.
#![tactic(auto)]

use book::Book;
use bundle::Bundle;
use refusal::InspectionFault;
use refused::Refused;
use std::{fmt, io};
use store::Store;
use store::pairs::Pairs;

/// The most bytes that a file has here.
const LONGEST: usize = 65_536;

/// The most profiles that an inspection takes.
const MOST: usize = 32;

/// How a file over the limit is told.
const TOO_LONG: Refused = Refused {
    number: 1,
    cause: 0,
    place: 0,
};

/// How many profiles, clauses and captures there are.
#[derive(Clone, Copy, Debug)]
struct Counts {
    profiles: usize,
    clauses: usize,
    captures: usize,
}

impl fmt::Display for Counts {
    fn fmt<W: fmt::Write>(&self, f: &mut fmt::Formatter<W>) -> fmt::Result {
        let Counts {
            profiles,
            clauses,
            captures,
        } = *self;
        write!(
            f,
            "profiles {profiles} clauses {clauses} captures {captures}"
        )
    }
}

fn check_length(file: &[u8]) -> Result<(), Refused> {
    if file.len() > LONGEST {
        Err(TOO_LONG)
    } else {
        Ok(())
    }
}

/// How many clauses the profiles of a library have; the first that is refused, or is one too many, is told.
fn count_clauses(profiles: &Book) -> Result<usize, InspectionFault> {
    let mut clauses = 0usize;
    for (n, pair) in Pairs::of(profiles).enumerate() {
        if n >= MOST {
            return Err(InspectionFault::TooManyPicks);
        }
        clauses = clauses.saturating_add(profile::read(pair.body)?);
    }
    Ok(clauses)
}

fn inspect(library: &[u8], captures: &[u8]) -> Result<Counts, Refused> {
    check_length(library)?;
    book::check(library)?;
    check_length(captures)?;
    bundle::check(captures)?;
    let profiles = book::open(library);
    Ok(Counts {
        profiles: profiles.count(),
        clauses: count_clauses(&profiles)?,
        captures: Bundle::open(captures).count(),
    })
}

fn main(rt: HostRuntime) -> io::Result<()> {
    let library = files::read_file(&rt, "library.json", LONGEST)?;
    let captures = files::read_file(&rt, "captures.cap", LONGEST)?;
    match inspect(&library, &captures) {
        Ok(counts) => println!(rt; "{counts}"),
        Err(refused) => println!(rt; "{refused}"),
    }
}
