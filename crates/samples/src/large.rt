// Texts at the limits of length, and objects of many names.
use crate::of_text;
use std::alloc::{AllocError, Global};
use std::io;

// The bytes `before`, `unit` so many times, and `behind`.
fn filled(
    heap: Global,
    before: &[u8],
    unit: &[u8],
    times: usize,
    behind: &[u8],
) -> Result<Vec<u8>, AllocError> {
    let mut text = Vec::new(heap);
    text.extend_from_slice(before)?;
    for _ in 0..times {
        text.extend_from_slice(unit)?;
    }
    text.extend_from_slice(behind)?;
    Ok(text)
}

fn show(rt: &HostRuntime, name: &str, text: &[u8]) -> io::Result<()> {
    let (number, place) = match of_text(text) {
        Ok(_) => (0, 0),
        Err(refused) => (refused.number, refused.place),
    };
    let length = text.len();
    println!(rt; "{name}, {length} bytes: {number} {place}")
}

pub fn long_texts(rt: &HostRuntime) -> io::Result<()> {
    let heap = rt.alloc();
    show(
        rt,
        "a string",
        &filled(heap, b"\"", b"a", 1_048_574, b"\"")?,
    )?;
    show(
        rt,
        "a string",
        &filled(heap, b"\"", b"a", 1_048_575, b"\"")?,
    )?;
    show(
        rt,
        "a string without its end",
        &filled(heap, b"\"", b"a", 1_048_575, b"")?,
    )?;
    show(rt, "a number", &filled(heap, b"", b"7", 1_048_576, b"")?)?;
    show(rt, "white space", &filled(heap, b"", b" ", 1_048_576, b"")?)?;
    show(
        rt,
        "white space and a digit",
        &filled(heap, b"", b"\n", 1_048_575, b"1")?,
    )?;
    show(rt, "brackets", &filled(heap, b"", b"[", 1_048_576, b"")?)?;
    show(rt, "brackets", &filled(heap, b"", b"[", 1_048_577, b"")?)?;
    show(rt, "items", &filled(heap, b"[0", b",0", 524_286, b"]")?)?;
    show(
        rt,
        "empty objects",
        &filled(heap, b"[{}", b",{}", 349_000, b"]")?,
    )
}

// A digit of a name: 26 letters, then 10 digits.
fn letter(n: usize) -> u8 {
    let d = n % 36;
    if d < 26 {
        b'a' + d as u8
    } else {
        b'0' + (d - 26) as u8
    }
}

// An object whose members' names are the numbers below `count`, and then the number `last`.
fn numbered(heap: Global, count: usize, last: usize) -> Result<Vec<u8>, AllocError> {
    let mut text = Vec::new(heap);
    text.extend_from_slice(b"{")?;
    for n in 0..count {
        text.extend_from_slice(&[
            b'"',
            letter(n),
            letter(n / 36),
            letter(n / 1_296),
            letter(n / 46_656),
            b'"',
            b':',
            b'0',
            b',',
        ])?;
    }
    text.extend_from_slice(&[
        b'"',
        letter(last),
        letter(last / 36),
        letter(last / 1_296),
        letter(last / 46_656),
        b'"',
        b':',
        b'0',
        b'}',
    ])?;
    Ok(text)
}

pub fn many_names(rt: &HostRuntime) -> io::Result<()> {
    let heap = rt.alloc();
    show(rt, "distinct names", &numbered(heap, 100_000, 100_000)?)?;
    show(
        rt,
        "the first name again at the end",
        &numbered(heap, 100_000, 0)?,
    )?;
    show(rt, "the last name again", &numbered(heap, 100_000, 99_999)?)?;
    show(rt, "distinct names", &numbered(heap, 116_507, 116_507)?)?;
    show(
        rt,
        "a thousand empty names",
        &filled(heap, b"{", b"\"\":1,", 1_000, b"\"\":1}")?,
    )?;
    show(
        rt,
        "objects of twenty names",
        &filled(
            heap,
            b"[{}",
            b",{\"a\":1,\"b\":1,\"c\":1,\"d\":1,\"e\":1,\"f\":1,\"g\":1,\"h\":1,\"i\":1,\"j\":1,\"k\":1,\"l\":1,\"m\":1,\"n\":1,\"o\":1,\"p\":1,\"q\":1,\"r\":1,\"s\":1,\"t\":1}",
            8_000,
            b"]",
        )?,
    )
}
