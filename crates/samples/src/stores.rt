// Bundles and books, and both at their limits.
use crate::Verdict;
use bundle::Bundle;
use refused::Refused;
use std::alloc::{AllocError, Global};
use std::io;
use store::Store;

// Apart from `of_book`: two libraries' functions of two types, in two lines.
pub fn of_bundle(bytes: &[u8]) -> Verdict {
    bundle::check(bytes)?;
    Ok(Bundle::open(bytes).count())
}

pub fn of_book(bytes: &[u8]) -> Verdict {
    book::check(bytes)?;
    Ok(book::open(bytes).count())
}

fn show(rt: &HostRuntime, name: &str, verdict: Verdict) -> io::Result<()> {
    match verdict {
        Ok(count) => println!(rt; "{name}: 0 {count} 0"),
        // without the `R` of a line by itself
        Err(
            Refused {
                number,
                cause,
                place,
            },
        ) => println!(rt; "{name}: {number} {cause} {place}"),
    }
}

// A path of its own for each number below 17,576.
fn path(n: usize) -> [u8; 5] {
    [b'/', b'p', letter(n), letter(n / 26), letter(n / 676)]
}

fn letter(n: usize) -> u8 {
    b'a' + (n % 26) as u8
}

// A bundle of so many records, each with a body of so many bytes.
fn bundle_of(heap: Global, records: usize, body: usize) -> Result<Vec<u8>, AllocError> {
    let mut bytes = Vec::new(heap);
    bytes.extend_from_slice(b"CAP\x00\x01")?;
    bytes.extend_from_slice(&((records & 0xffff) as u16).to_be_bytes())?;
    for n in 0..records {
        bytes.push(5)?;
        bytes.extend_from_slice(&path(n))?;
        bytes.extend_from_slice(&((body & 0xffff_ffff) as u32).to_be_bytes())?;
        bytes.resize(bytes.len().saturating_add(body), b'x')?;
    }
    Ok(bytes)
}

// A book of so many members, the last of which has the name `last`.
fn book_of(heap: Global, members: usize, last: &[u8]) -> Result<Vec<u8>, AllocError> {
    let mut text = Vec::new(heap);
    text.extend_from_slice(b"{")?;
    for n in 1..members {
        text.extend_from_slice(b"\"")?;
        text.extend_from_slice(&path(n))?;
        text.extend_from_slice(b"\":{},")?;
    }
    text.extend_from_slice(b"\"")?;
    text.extend_from_slice(last)?;
    text.extend_from_slice(b"\":{}}")?;
    Ok(text)
}

pub fn limits(rt: &HostRuntime) -> io::Result<()> {
    bundle_limits(rt)?;
    book_limits(rt)
}

fn bundle_limits(rt: &HostRuntime) -> io::Result<()> {
    let heap = rt.alloc();
    show(rt, "1,024 records", of_bundle(&bundle_of(heap, 1_024, 0)?))?;
    show(rt, "1,025 records", of_bundle(&bundle_of(heap, 1_025, 0)?))?;
    show(
        rt,
        "a body of 1,048,576 bytes",
        of_bundle(&bundle_of(heap, 1, 1_048_576)?),
    )?;
    show(
        rt,
        "a body of 1,048,577 bytes",
        of_bundle(&bundle_of(heap, 1, 1_048_577)?),
    )?;
    show(
        rt,
        "16 such bodies: too long",
        of_bundle(&bundle_of(heap, 16, 1_048_576)?),
    )?;
    show(
        rt,
        "16,777,217 bytes",
        of_bundle(&vec![in heap; 0; 16_777_217]?),
    )
}

fn book_limits(rt: &HostRuntime) -> io::Result<()> {
    let heap = rt.alloc();
    show(
        rt,
        "1,024 members",
        of_book(&book_of(heap, 1_024, b"/last")?),
    )?;
    show(
        rt,
        "1,025 members",
        of_book(&book_of(heap, 1_025, b"/last")?),
    )?;
    show(
        rt,
        "1,024 members, the last unlawful",
        of_book(&book_of(heap, 1_024, b"last")?),
    )?;
    show(
        rt,
        "1,025 members, the last unlawful",
        of_book(&book_of(heap, 1_025, b"last")?),
    )?;
    show(
        rt,
        "1,024 members, the last again",
        of_book(&book_of(heap, 1_024, b"/pbaa")?),
    )
}
