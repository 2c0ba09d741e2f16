// One line of a table: three numbers and the bytes of a sample, single spaces between. In the bytes `%XX` is the byte of that hexadecimal number.
ghost use Rattle.std.specs.Prelude.{◌<◌, length, IfSome};

use crate::Verdict;
use refused::Refused;
use std::alloc::{AllocError, Global};

#[derive(Drop)]
pub struct Case {
    pub wanted: Verdict,
    pub bytes: Vec<u8>,
}

fn digit(b: u8) -> Option<u8> {
    match b {
        b'0'..=b'9' => Some(b - b'0'),
        b'a'..=b'f' => Some(b - b'a' + 10),
        _ => None,
    }
}

// The byte of two hexadecimal digits behind a percent sign, if these stand at the front, and the bytes behind them.
fn escaped(written: &[u8]) -> Option<(u8, &[u8])>
    ensures { IfSome result (λ parts. length parts.1.now < length written.now) }
{
    let [b'%', high, low, behind @ ..] = written else {
        return None;
    };
    let byte = digit(*high)?.checked_mul(16)?.checked_add(digit(*low)?)?;
    Some((byte, behind))
}

fn bytes_of(heap: Global, written: &[u8]) -> Result<Vec<u8>, AllocError> {
    let mut bytes = Vec::new(heap);
    let mut rest = written;
    while let Some((first, others)) = rest.split_first() {
        let (byte, behind) = escaped(rest).unwrap_or((*first, others));
        bytes.push(byte)?;
        rest = behind;
    }
    Ok(bytes)
}

// The decimal number at the front, and what stands behind the byte that ends it, whichever that is. Without digits it is 0, and one beyond the largest
// `usize` is that.
fn decimal(line: &[u8]) -> (usize, &[u8]) {
    let mut value = 0usize;
    let mut rest = line;
    while let [digit @ b'0'..=b'9', behind @ ..] = rest {
        value = value
            .saturating_mul(10)
            .saturating_add((*digit - b'0') as usize);
        rest = behind;
    }
    match rest {
        [_, behind @ ..] => (value, behind),
        [] => (value, rest),
    }
}

// The verdict of the three numbers that a line begins with, 0, a count and 0 of what is accepted; and what stands behind them. No sample comes out
// with a place and the number 0, nor with a refusal's number or cause over 255.
fn wanted(line: &[u8]) -> Option<(Verdict, &[u8])> {
    let (number, behind) = decimal(line);
    let (cause, behind) = decimal(behind);
    let (place, written) = decimal(behind);
    let verdict = match (number, place) {
        (0, 0) => Ok(cause),
        (0, _) => return None,
        _ => Err(Refused {
            number: u8::try_from(number).ok()?,
            cause: u8::try_from(cause).ok()?,
            place,
        }),
    };
    Some((verdict, written))
}

/// The sample of a line, if its three numbers are a verdict's.
pub fn parse(heap: Global, line: &str) -> Result<Option<Case>, AllocError> {
    match wanted(line.as_bytes()) {
        Some((wanted, written)) => Ok(Some(Case {
            wanted,
            bytes: bytes_of(heap, written)?,
        })),
        None => Ok(None),
    }
}
