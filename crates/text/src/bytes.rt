// What a byte is, and how a number or a string goes on with it.
ghost use Rattle.std.specs.Prelude.{◌≡◌, ◌&&◌, ◌==◌};
ghost use Rattle.syntax.specs.Bytes.{white, digit, hex, unescaped, escaped, mark, sign};
ghost use Rattle.syntax.specs.Machine.{next_digits, ended, next_letters, plain};

use syntax::{Digits, Letters};

pub(crate) fn is_white(b: u8) -> bool
    ensures { result ≡ white b }
{
    matches!(b, b' ' | b'\t' | b'\n' | b'\r')
}

fn is_digit(b: u8) -> bool
    ensures { result ≡ digit b }
{
    b.is_ascii_digit()
}

fn is_hex(b: u8) -> bool
    ensures { result ≡ hex b }
{
    b.is_ascii_hexdigit()
}

// What stands for itself in a string.
pub(crate) fn is_unescaped(b: u8) -> bool
    ensures { result ≡ unescaped b }
{
    b >= b' ' && b != b'"' && b != b'\\'
}

// What may follow a backslash, but for the u.
fn is_escaped(b: u8) -> bool
    ensures { result ≡ escaped b }
{
    matches!(b, b'"' | b'\\' | b'/' | b'b' | b'f' | b'n' | b'r' | b't')
}

fn is_mark(b: u8) -> bool
    ensures { result ≡ mark b }
{
    matches!(b, b'e' | b'E')
}

fn is_sign(b: u8) -> bool
    ensures { result ≡ sign b }
{
    matches!(b, b'+' | b'-')
}

// How a number that has come to `so_far` goes on with `b`, if it does.
pub(crate) fn next_digits(so_far: Digits, b: u8) -> Option<Digits>
    ensures { result ≡ next_digits so_far b }
{
    match so_far {
        Digits::Minus if b == b'0' => Some(Digits::Zero),
        Digits::Minus if is_digit(b) => Some(Digits::Whole),
        Digits::Zero | Digits::Whole if b == b'.' => Some(Digits::Point),
        Digits::Whole if is_digit(b) => Some(Digits::Whole),
        Digits::Point | Digits::Fraction if is_digit(b) => Some(Digits::Fraction),
        Digits::Mark | Digits::Sign | Digits::Power if is_digit(b) => Some(Digits::Power),
        Digits::Zero | Digits::Whole | Digits::Fraction if is_mark(b) => Some(Digits::Mark),
        Digits::Mark if is_sign(b) => Some(Digits::Sign),
        _ => None,
    }
}

// Whether a number may end there.
pub(crate) fn may_end(so_far: Digits) -> bool
    ensures { result ≡ ended so_far }
{
    matches!(
        so_far,
        Digits::Zero | Digits::Whole | Digits::Fraction | Digits::Power
    )
}

// Whether `b` closes a string that stands at `spot`.
pub(crate) fn closes(spot: Letters, b: u8) -> bool
    ensures { result ≡ (plain spot && b == 34) }
{
    matches!(spot, Letters::Plain) && b == b'"'
}

// How a string that stands at `spot` goes on with `b`, if it does.
pub(crate) fn next_letters(spot: Letters, b: u8) -> Option<Letters>
    ensures { result ≡ next_letters spot b }
{
    match spot {
        Letters::Plain if b == b'\\' => Some(Letters::Escape),
        Letters::Plain if b >= b' ' => Some(Letters::Plain),
        Letters::Escape if b == b'u' => Some(Letters::Four),
        Letters::Escape if is_escaped(b) => Some(Letters::Plain),
        Letters::Four if is_hex(b) => Some(Letters::Three),
        Letters::Three if is_hex(b) => Some(Letters::Two),
        Letters::Two if is_hex(b) => Some(Letters::One),
        Letters::One if is_hex(b) => Some(Letters::Plain),
        _ => None,
    }
}
