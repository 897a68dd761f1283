//! Output to a terminal: lines truncated at the terminal's width, with colours.
ghost use Rattle.std.specs.Prelude.{◌≡◌, ◌<◌, ◌-◌, ◌^◌, None, is_none, if◌then◌else◌};
ghost use Rattle.session_show.specs.Shown.{Writes};

use crate::split::{DIGITS, Pieces, count_leading, skip_front};
use memchr::{memmem, memrchr};
use session_log::{Failed, Target, put_all};
use session_show::{Detail, TextBuf, WriteText, put_chunks};

const PLAIN: &[u8] = b"\x1b[0m";

const BOLD: &[u8] = b"\x1b[1m";

const DIM: &[u8] = b"\x1b[2m";

const RED: &[u8] = b"\x1b[31m";

const GREEN: &[u8] = b"\x1b[32m";

const YELLOW: &[u8] = b"\x1b[33m";

const CYAN: &[u8] = b"\x1b[36m";

/// The style of lines at a terminal.
#[derive(Clone, Copy)]
pub struct Style {
    /// The maximum width of a line. `usize::MAX` means unlimited, because no line is that long.
    pub width: usize,
    pub has_colours: bool,
    /// The column in which line numbers end, or 0 if line numbers aren't aligned.
    pub numbers: usize,
}

/// Writes a line without its line feed. If the line is wider than the terminal, writes as much of it as fits, followed
/// by two dots. A character of three or four bytes in UTF-8 counts as two columns, because it may be a wide character.
fn write_cut(buf: &mut TextBuf, line: &[u8], width: usize) {
    let (mut columns, mut end) = (0_usize, 0);
    for place in 0..line.len() {
        columns = columns.saturating_add(match line[place] {
            0x80..=0xBF => 0,
            0xE0..=0xFF => 2,
            _ => 1,
        });
        if columns > width {
            buf.bytes(line.get(..end).unwrap_or(line));
            buf.text("..");
            return;
        }
        if columns.saturating_add(2) <= width {
            end = place.saturating_add(1);
        }
    }
    buf.bytes(line);
}

/// Returns the colour of a line that begins with this many digits.
fn colour_of(line: &[u8], digits: usize) -> &'static [u8] {
    let text = skip_front(line, digits);
    if digits == 0 {
        return if memmem::find(text, b"ERR_").is_some() {
            RED
        } else {
            b""
        };
    }
    match text {
        // An ERROR packet from the key, such as ` < 00000001 ERROR 1 06`.
        [b' ', b'<', ..] if skip_front(text, 12).starts_with(b"ERROR ") => RED,
        [b' ', b'<', ..] => GREEN,
        [b' ', b'>', ..] => CYAN,
        [b' ', b'p' | b'k' | b's', ..] => YELLOW,
        [b' ', b't' | b'#', ..] => DIM,
        [b' ', b' ', b' ', b'a', ..] if !text.starts_with(b"   answer 00") => RED,
        [b' ', b' ', b' ', b'a' | b'r', ..] => BOLD,
        _ => b"",
    }
}

/// A text of whole lines, written in a style.
#[derive(Clone, Copy)]
pub struct StyledLines<'a> {
    pub text: &'a [u8],
    pub style: &'a Style,
}

impl WriteText for StyledLines<'_> {
    fn write(&self, buf: &mut TextBuf) {
        let style = self.style;
        let lines = Pieces {
            rest: self.text,
            end: b'\n',
        };
        for line in lines {
            let digits = count_leading(line, DIGITS);
            let pad = if digits == 0 {
                0
            } else {
                style.numbers.saturating_sub(digits)
            };
            let colour = if style.has_colours {
                colour_of(line, digits)
            } else {
                b""
            };
            buf.bytes(colour);
            buf.fill(buf.place(), pad);
            write_cut(buf, line, style.width.saturating_sub(pad));
            if !colour.is_empty() {
                buf.bytes(PLAIN);
            }
            buf.text("\n");
        }
    }
}

/// A target that writes to `inner`. If there is a style, `inner` is a terminal.
#[derive(Drop)]
pub struct Screen<T> {
    pub inner: T,
    pub style: Option<Style>,
    /// The incomplete line.
    pub line: Vec<u8>,
}

/// Writes lines in a style. Not inlined, because the buffer in the stack frame is set to zeros in each call.
#[inline(never)]
fn put_styled<T: Target>(target: &mut T, lines: &StyledLines<'_>) -> Result<(), Failed>
    requires { T.failed target.old < 2 ^ 64 - 1 }
    ensures { Writes T.taken T.failed (target.old, target.new) result }
{
    put_chunks(target, &mut TextBuf::new(Detail::Fixed), lines)
}

impl<T: Target> Target for Screen<T> {
    // Without a style, the text is passed on unchanged. With a style, the contracts state nothing about the output.
    ghost taken = { λ s. if is_none s.style then T.taken s.inner else None };

    ghost failed = { λ s. T.failed s.inner };

    fn put(&mut self, piece: &[u8]) -> Result<usize, Failed> {
        let Some(style) = &self.style else {
            return self.inner.put(piece);
        };
        // Number of leading bytes that consist of complete lines.
        let len = match memrchr(b'\n', piece) {
            Some(place) => place.saturating_add(1),
            None => 0,
        };
        let whole = piece.get(..len).unwrap_or(piece);
        if self.line.extend_from_slice(whole).is_err() {
            // If an allocation fails, the text is written unchanged.
            put_all(&mut self.inner, piece)?;
            return Ok(piece.len());
        }
        if len > 0 {
            let text = self.line.as_slice();
            put_styled(&mut self.inner, &StyledLines { text, style })?;
            self.line.clear();
        }
        let _ = self.line.extend_from_slice(skip_front(piece, len));
        Ok(piece.len())
    }

    fn failures(&self) -> u64 {
        self.inner.failures()
    }
}
