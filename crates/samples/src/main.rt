// Runs tables of samples: texts, bundles, books and profiles with their verdicts, and says how many come out otherwise than the table has it.
#![tactic(auto)]

mod case;
mod large;
mod stores;

use case::Case;
use refused::Refused;
use std::{fs, io};

/// How many pairs or clauses there are in what is accepted, or how it is refused.
pub type Verdict = Result<usize, Refused>;

// A text has nothing to count, and its refusal is told by the number of the cause.
pub fn of_text(bytes: &[u8]) -> Verdict {
    match text::read(bytes) {
        Ok(_) => Ok(0),
        Err(fault) => Err(Refused {
            number: fault.cause.number(),
            cause: 0,
            place: fault.place,
        }),
    }
}

fn of_profile(bytes: &[u8]) -> Verdict {
    Ok(profile::read(bytes)?)
}

// Whether the sample of a line comes out as the line has it; a line that is no sample does not.
fn holds<J: Fn(&[u8]) -> Verdict>(rt: &HostRuntime, judge: &J, line: &str) -> io::Result<bool>
    requires { J.IsAlwaysCallable judge.now }
{
    match case::parse(rt.alloc(), line)? {
        Some(Case { wanted, bytes }) => {
            let found = judge(&bytes);
            Ok(found == wanted)
        }
        None => Ok(false),
    }
}

fn run<J: Fn(&[u8]) -> Verdict>(rt: &HostRuntime, name: &str, judge: &J) -> io::Result<()>
    requires { J.IsAlwaysCallable judge.now }
{
    let table = fs::read_to_string(rt, name)?;
    let mut count = 0usize;
    let mut differ = 0usize;
    for line in table.lines() {
        count = count.saturating_add(1);
        if !holds(rt, judge, line)? {
            println!(rt; "{name}: line {count} differs")?;
            differ = differ.saturating_add(1);
        }
    }
    println!(rt; "{name}: {count} samples, {differ} differ")
}

fn main(rt: HostRuntime) -> io::Result<()> {
    run(&rt, "texts.txt", &of_text)?;
    run(&rt, "bundles.txt", &stores::of_bundle)?;
    run(&rt, "books.txt", &stores::of_book)?;
    run(&rt, "profiles.txt", &of_profile)?;
    large::long_texts(&rt)?;
    large::many_names(&rt)?;
    stores::limits(&rt)
}
