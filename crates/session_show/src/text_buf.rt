//! A chunk of a text.
ghost use Rattle.std.specs.Prelude.{◌<◌, ◌≤◌, length};

use crate::detail::Detail;
use crate::status_names::name_for;
use arrayvec::ArrayVec;
use itoa::Buffer;
use std::fmt;

/// Length of a chunk in bytes.
pub const CHUNK_LEN: usize = 8192;

/// Number of bytes that are converted to hexadecimal digits at a time.
const HEX_BATCH_LEN: usize = 32;

/// Padding for columns.
const SPACES: &[u8] = b"                                ";

/// A buffer for one chunk of a text: bytes before the chunk are skipped, and bytes after it are dropped. A text of any
/// length is produced in chunks of a fixed size, by writing the text once for each chunk.
#[derive(Drop)]
pub struct TextBuf {
    /// Whether names, members and comments are written.
    pub(crate) explains: bool,
    /// Number of bytes of the text before this chunk.
    first: usize,
    /// Number of bytes still to skip.
    pub(crate) before: usize,
    part: ArrayVec<u8, CHUNK_LEN>,
    /// Whether the text is in a JSON string, in which `"` and `\` are escaped.
    pub(crate) is_quoted: bool,
    /// Length of a part that occurs at most once in a text, if known from an earlier chunk.
    pub(crate) known: Option<usize>,
}

impl TextBuf {
    /// Returns a buffer for a text's first chunk.
    pub fn new(detail: Detail) -> Self {
        TextBuf {
            explains: matches!(detail, Detail::Explained),
            first: 0,
            before: 0,
            part: ArrayVec::new(),
            is_quoted: false,
            known: None,
        }
    }

    /// Begins the chunk after the first `before` bytes of the text.
    pub fn begin(&mut self, before: usize) {
        self.first = before;
        self.before = before;
        self.part.clear();
        self.is_quoted = false;
        if before == 0 {
            self.known = None;
        }
    }

    /// Returns the number of bytes written so far, including those that were skipped.
    pub fn place(&self) -> usize {
        let passed = self.first.saturating_sub(self.before);
        passed.saturating_add(self.part.len())
    }

    /// Returns the bytes of the chunk so far.
    pub fn part(&self) -> &[u8]
        ensures { length result.now ≤ 8192 }
    {
        self.part.as_slice()
    }

    /// Returns whether the chunk is full.
    pub fn is_full(&self) -> bool {
        self.part.is_full()
    }

    /// Writes bytes.
    pub fn bytes(&mut self, bytes: &[u8]) {
        if bytes.len() <= self.before {
            self.before -= bytes.len();
            return;
        }
        let passed = self.before.min(bytes.len());
        self.before -= passed;
        let rest = bytes.split_at(passed).1;
        let space = CHUNK_LEN - self.part.len();
        let _ = self
            .part
            .try_extend_from_slice(rest.split_at(space.min(rest.len())).0);
    }

    /// Writes a text.
    pub fn text(&mut self, text: &str) {
        if self.is_quoted {
            self.json_text(text);
        } else {
            self.bytes(text.as_bytes());
        }
    }

    /// Writes a text in a JSON string. This is separate from `text`, which is called much more often.
    fn json_text(&mut self, text: &str) {
        for byte in text.as_bytes() {
            if matches!(byte, b'"' | b'\\') {
                self.bytes(b"\\");
            }
            self.bytes(&[*byte]);
        }
    }

    /// Pads the text that was written since an offset with spaces to a width.
    pub fn fill(&mut self, place: usize, width: usize) {
        let written = self.place().saturating_sub(place);
        self.bytes(SPACES.get(..width.saturating_sub(written)).unwrap_or(b""));
    }

    /// Writes a decimal number, padded with spaces on the left to a width.
    pub fn column(&mut self, number: u64, width: usize) {
        let mut buffer = Buffer::new();
        let digits = buffer.format(number);
        self.fill(self.place(), width.saturating_sub(digits.len()));
        self.text(digits);
    }

    /// Writes a decimal number.
    pub fn decimal(&mut self, number: u64) {
        let mut buffer = Buffer::new();
        self.text(buffer.format(number));
    }

    /// Writes a format: a text in which `%` and a letter mark the place of each number (see `mark`). If a number or its
    /// name is missing, the text before the mark ends at the last comma.
    pub fn format(&mut self, format: &[u8], numbers: &[Option<u64>]) {
        let mut rest = format;
        for number in numbers {
            let (comma, place) = find_mark(rest);
            let Some([_, mark, after @ ..]) = rest.get(place..) else {
                break;
            };
            match number {
                Some(number) => self.mark(*mark, *number, front(rest, place), front(rest, comma)),
                None => self.bytes(front(rest, comma)),
            }
            rest = after;
        }
        self.bytes(rest);
    }

    /// Writes the text before a mark, and then a number. The mark `d` writes the number in decimal, `x` and `w` its
    /// last byte and its last four bytes in hexadecimal, and `-` nothing; `n` writes the number in decimal and a space,
    /// without the text. Any other letter writes the name of the number (`name_for`), and an uppercase letter also a
    /// quotation mark after it. If there is no name, `less` is written instead of the text.
    fn mark(&mut self, mark: u8, number: u64, text: &[u8], less: &[u8]) {
        match mark {
            b'-' => self.bytes(text),
            b'd' => {
                self.bytes(text);
                self.decimal(number);
            }
            b'n' => {
                self.decimal(number);
                self.bytes(b" ");
            }
            b'x' => {
                self.bytes(text);
                self.hex(&number.to_be_bytes()[7..]);
            }
            b'w' => {
                self.bytes(text);
                self.hex(&number.to_be_bytes()[4..]);
            }
            _ => match name_for(mark, number) {
                Some(name) => {
                    self.bytes(text);
                    self.bytes(name.as_bytes());
                    if mark < b'a' {
                        self.bytes(b"\"");
                    }
                }
                None => self.bytes(less),
            },
        }
    }

    /// Writes a decimal integer.
    pub fn integer(&mut self, number: i128) {
        // Most numbers are small, and small numbers are converted in fewer steps.
        if let Ok(small) = u64::try_from(number) {
            self.decimal(small);
            return;
        }
        let mut buffer = Buffer::new();
        self.text(buffer.format(number));
    }

    /// Writes bytes as hexadecimal digits.
    pub fn hex(&mut self, bytes: &[u8]) {
        // A long text consists mostly of hexadecimal digits, so many of them are skipped at once.
        let passed = bytes.len().min(self.before / 2);
        self.before -= 2 * passed;
        for some in bytes.split_at(passed).1.chunks(HEX_BATCH_LEN) {
            let mut digits = [0; 2 * HEX_BATCH_LEN];
            if let Some(digits) = digits.get_mut(..some.len().saturating_mul(2)) {
                let _ = hex::encode_to_slice(some, digits);
                self.bytes(digits);
            }
        }
    }

    /// Writes the UTF-16 code unit with these two bytes as `\u` and four digits.
    pub fn escape(&mut self, high: u8, low: u8) {
        let len = if self.is_quoted { 7 } else { 6 };
        // A long text may consist mostly of escapes, so many of them are skipped at once.
        if len <= self.before {
            self.before -= len;
            return;
        }
        if self.is_quoted {
            self.bytes(b"\\");
        }
        let mut piece = *b"\\u0000";
        let _ = hex::encode_to_slice([high, low].as_slice(), &mut piece[2..]);
        self.bytes(&piece);
    }
}

impl fmt::Write for TextBuf {
    /// Writes a text. Never fails.
    fn write_str(&mut self, text: &str) -> fmt::Result {
        self.text(text);
        Ok(())
    }
}

/// Returns two offsets in a format: that of the last comma before the first mark (0 if there is none), and that of the
/// first mark.
fn find_mark(format: &[u8]) -> (usize, usize) {
    let mut comma = 0;
    let mut place = 0_usize;
    for byte in format {
        match *byte {
            b'%' => break,
            b',' => comma = place,
            _ => {}
        }
        place = place.saturating_add(1);
    }
    (comma, place)
}

/// Returns the first `len` bytes, or all bytes if there are fewer.
pub fn front(bytes: &[u8], len: usize) -> &[u8] {
    bytes.get(..len).unwrap_or(bytes)
}
