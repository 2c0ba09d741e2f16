// Reads `profile.json` in the working folder and prints `ok` and how many clauses it has, or the refusal, the cause of a text's fault and the place,
// and on a second line what is wrong there.
#![tactic(auto)]

mod explain;
mod gaps;
mod shown;
mod spot;
mod trail;
mod words;

use explain::explain;
use refused::Refused;
use requirement::ProfileFault;
use std::io;

// The most bytes that a text has.
const LONGEST: usize = 1_048_576;

fn print_fault(rt: &HostRuntime, text: &[u8], fault: ProfileFault) -> io::Result<()> {
    // without the `R` of a line by itself
    let Refused {
        number,
        cause,
        place,
    } = Refused::from(fault);
    let words = explain(rt.alloc(), text, fault)?;
    println!(rt; "{number} {cause} {place}\n{words}")
}

fn main(rt: HostRuntime) -> io::Result<()> {
    let text = files::read_file(&rt, "profile.json", LONGEST)?;
    match profile::read(&text) {
        Ok(clauses) => println!(rt; "ok {clauses}"),
        Err(fault) => print_fault(&rt, &text, fault),
    }
}
