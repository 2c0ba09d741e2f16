// Reads `text.json` in the working folder and prints `ok`, or the cause and the place of its fault.
#![tactic(auto)]

use std::io;

/// The most bytes that a text has.
const LONGEST: usize = 1_048_576;

fn main(rt: HostRuntime) -> io::Result<()> {
    let bytes = files::read_file(&rt, "text.json", LONGEST)?;
    match text::read(&bytes) {
        Ok(_) => println!(rt; "ok"),
        Err(fault) => {
            let cause = fault.cause.number();
            let place = fault.place;
            println!(rt; "{cause} {place}")
        }
    }
}
