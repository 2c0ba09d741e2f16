// Names and strings of a text as a reader gets to see them.
use std::fmt;

// The most bytes that are shown.
const LONGEST: usize = 60;

// The bytes between a string's quotes: what is no printable ASCII shows as `?`, and a long string is cut.
#[derive(Clone, Copy, Debug, PartialEq, Eq)]
pub struct Shown<'a>(pub &'a [u8]);

impl fmt::Display for Shown<'_> {
    fn fmt<W: fmt::Write>(&self, f: &mut fmt::Formatter<W>) -> fmt::Result {
        for b in self.0.iter().take(LONGEST) {
            f.write_char(printable(*b))?;
        }
        if self.0.len() > LONGEST {
            f.write_str("..")?;
        }
        Ok(())
    }
}

fn printable(b: u8) -> char {
    match b {
        b' '..=b'~' => char::from(b),
        _ => '?',
    }
}
