//! Untrusted texts and system errors in the program's messages.
use crate::split::Pieces;
use session_show::{TextBuf, WriteText, write_escaped};
use std::fmt::{Display, Write};
use std::io::Error;

/// A text of whole lines, in which invisible characters are escaped.
#[derive(Clone, Copy)]
pub struct EscapedText<'a>(pub &'a [u8]);

impl WriteText for EscapedText<'_> {
    fn write(&self, buf: &mut TextBuf) {
        let lines = Pieces {
            rest: self.0,
            end: b'\n',
        };
        for line in lines {
            write_escaped(buf, line);
            buf.text("\n");
        }
    }
}

/// Writes a `Display` value.
pub fn write_display<T: Display>(buf: &mut TextBuf, what: &T) {
    let _ = write!(buf, "{what}");
}

/// An error of a stream, with the name of the stream if the message doesn't contain it.
#[derive(Clone, Copy)]
pub struct StreamFailure<'a> {
    pub name: Option<&'a str>,
    pub error: &'a Error,
}

impl WriteText for StreamFailure<'_> {
    fn write(&self, buf: &mut TextBuf) {
        buf.text("  ");
        if let Some(name) = self.name {
            write_escaped(buf, name.as_bytes());
            buf.text(": ");
        }
        write_display(buf, self.error);
        buf.text("\n");
    }
}
