//! Splitting of texts.
ghost use Rattle.std.specs.Prelude.{◌≤◌, length};
ghost use Rattle.std.specs.Iterator.{at_most};

use memchr::memchr;

/// The decimal digits.
pub const DIGITS: &[u8] = b"0123456789";

/// An iterator over the parts of a text that end at a separator, such as lines or words.
#[derive(Clone, Copy)]
pub struct Pieces<'a> {
    /// The rest of the text.
    pub rest: &'a [u8],
    pub end: u8,
}

impl<'a> Iterator for Pieces<'a> {
    type Item = &'a [u8];

    ghost remaining = { λ s. at_most (length s.rest.now) };

    fn next(&mut self) -> Option<&'a [u8]> {
        if self.rest.is_empty() {
            return None;
        }
        let (piece, rest) = self.rest.split_at(find_byte(self.rest, self.end));
        self.rest = match rest {
            [_, rest @ ..] => rest,
            [] => rest,
        };
        Some(piece)
    }
}

/// Returns the offset of the first byte with this value. Without such a byte, returns the text's length.
pub fn find_byte(text: &[u8], wanted: u8) -> usize
    ensures { result ≤ length text.now }
{
    memchr(wanted, text).unwrap_or(text.len())
}

/// Returns the number of bytes at the beginning of a text that are among `bytes`.
pub fn count_leading(text: &[u8], bytes: &[u8]) -> usize {
    for place in 0..text.len() {
        if !bytes.contains(&text[place]) {
            return place;
        }
    }
    text.len()
}

/// Returns the text without its first `len` bytes, or the whole text if it is shorter.
pub fn skip_front(text: &[u8], len: usize) -> &[u8] {
    text.get(len..).unwrap_or(text)
}
