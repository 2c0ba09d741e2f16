// Lines and columns of places in a text.
use std::fmt;

// A line and a column, from 1; columns count bytes.
#[derive(Clone, Copy, Debug, PartialEq, Eq)]
pub struct Spot {
    line: usize,
    column: usize,
}

impl Spot {
    // Where a place of a text is.
    pub fn at(text: &[u8], place: usize) -> Spot {
        let mut line: usize = 1;
        let mut column: usize = 1;
        for b in text.iter().take(place) {
            if *b == b'\n' {
                line = line.saturating_add(1);
                column = 1;
            } else {
                column = column.saturating_add(1);
            }
        }
        Spot { line, column }
    }
}

impl fmt::Display for Spot {
    fn fmt<W: fmt::Write>(&self, f: &mut fmt::Formatter<W>) -> fmt::Result {
        let line = self.line;
        let column = self.column;
        write!(f, "line {line}, column {column}")
    }
}
