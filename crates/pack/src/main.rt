// Packs the book `captures.json` in the working folder into the bundle `captures.cap`, and prints how many captures it packed, or the line of the
// book's refusal.
#![tactic(auto)]

use anyhow::anyhow;
use book::Book;
use refused::Refused;
use std::fs;
use store::Store;

/// The most bytes that a book has.
const LONGEST: usize = 1_048_576;

/// The bundle of an open book, written to a file.
fn write_bundle(rt: &HostRuntime, captures: &Book) -> anyhow::Result<()> {
    let mut bundle = vec![in rt.alloc(); 0u8; packing::size(captures)]?;
    match packing::pack(captures, &mut bundle) {
        Ok(_) => Ok(fs::write(rt, "captures.cap", bundle.as_slice())?),
        Err(_) => Err(anyhow!("the bundle does not fit")),
    }
}

fn main(rt: HostRuntime) -> anyhow::Result<()> {
    let text = files::read_file(&rt, "captures.json", LONGEST)?;
    if let Err(refusal) = book::check(&text) {
        let refused = Refused::from(refusal);
        return Ok(println!(rt; "{refused}")?);
    }
    let captures = book::open(&text);
    write_bundle(&rt, &captures)?;
    let count = captures.count();
    Ok(println!(rt; "packed {count}")?)
}
