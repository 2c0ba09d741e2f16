//! Lawful paths, and the paths above a path.
ghost use Rattle.std.specs.Prelude.{◌≡◌, ℕ, ◌<◌, List, [], ◌∷◌, length, take, IfSome, MatchOption};
ghost use Rattle.std.specs.Iterator.{YieldsFirstRef, item_count};
ghost use Rattle.std.specs.List.{list_all};
ghost use Rattle.store.specs.Paths.{path_byte, lawful_path, cuts, CutsLaw, LastSlash};

use std::marker::Model;

/// The most bytes that a path has.
pub const MAX_PATH_BYTES: usize = 255;

fn is_path_byte(byte: u8) -> bool
    ensures { result ≡ path_byte byte }
{
    byte.is_ascii_graphic() && byte != b'"' && byte != b'\\'
}

fn are_path_bytes(bytes: &[u8]) -> bool
    ensures { result ≡ list_all path_byte bytes.now }
{
    bytes.iter().all(|byte| is_path_byte(*byte))
}

/// Whether the bytes are a path: 2 to 255 printable bytes without quote and backslash, with a slash in front and none at the end.
pub fn is_path(bytes: &[u8]) -> bool
    ensures { result ≡ lawful_path bytes.now }
{
    match bytes {
        [b'/', .., last] => bytes.len() <= MAX_PATH_BYTES && *last != b'/' && are_path_bytes(bytes),
        _ => false,
    }
}

fn last_slash(path: &[u8]) -> Option<usize>
    ensures { LastSlash path.now result }
{
    path.iter().rposition(|byte| *byte == b'/')
}

/// The nearest path above a path: its front before the last slash past the first byte.
pub fn parent(path: &[u8]) -> Option<&[u8]>
    ensures above { MatchOption result (cuts path.now ≡ []) (λ c. cuts path.now ≡ c.now ∷ cuts c.now) }
    ensures front { IfSome result (λ c. c.now ≡ take (length c.now) path.now) }
    ensures shorter { IfSome result (λ c. length c.now < length path.now) }
    ensures law { CutsLaw path.now }
{
    match last_slash(path)? {
        0 => None,
        slash => Some(&path[..slash]),
    }
}

/// The paths above a path, the nearest first. A clause sees it as the list of those that are left.
#[derive(Drop)]
pub struct Ancestors<'a> {
    below: &'a [u8],
}

impl<'a> Model for Ancestors<'a> {
    ghost Value = { List (List ℕ) };

    ghost view = { λ a. cuts a.below.now };
}

impl<'a> Ancestors<'a> {
    /// The paths above `path`.
    pub fn of(path: &'a [u8]) -> Ancestors<'a>
        ensures { result ≡ cuts path.now }
    {
        Ancestors { below: path }
    }
}

impl<'a> Iterator for Ancestors<'a> {
    type Item = &'a [u8];

    ghost next_gives = { YieldsFirstRef (λ a. a) };

    ghost remaining = { item_count (λ a. a) };

    fn next(&mut self) -> Option<&'a [u8]> {
        let above = parent(self.below)?;
        self.below = above;
        Some(above)
    }
}
