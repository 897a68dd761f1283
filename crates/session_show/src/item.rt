//! CBOR items as text, in diagnostic notation (RFC 8949, section 8) or JSON (RFC 8259).
ghost use Rattle.std.specs.Prelude.{◌<◌, ◌≤◌, ◌-◌, ◌^◌};
ghost use Rattle.session_show.specs.Shown.{Writes};

use crate::chunked::{WriteText, put_chunks};
use crate::detail::Detail;
use crate::escape::{needs_no_escape, write_char};
use crate::text_buf::TextBuf;
use ctap_cbor::{Cursor, Fault, Item, check};
use session_log::{Failed, Target};
use session_walk::{Names, name_in};

/// Notations of CBOR items.
#[derive(Clone, Copy)]
pub struct Notation {
    comma: &'static str,
    colon: &'static str,
    /// The texts before and after the digits of a byte string.
    bytes: (&'static str, &'static str),
    is_json: bool,
}

/// Diagnostic notation: `{1: "usb", 2: [true, h'0aff', -7]}`.
pub static DIAGNOSTIC: &Notation = &Notation {
    comma: ", ",
    colon: ": ",
    bytes: ("h'", "'"),
    is_json: false,
};

/// JSON: byte strings are strings of hexadecimal digits, and map keys are strings.
pub static JSON: &Notation = &Notation {
    comma: ",",
    colon: ":",
    bytes: ("\"", "\""),
    is_json: true,
};

/// The bytes that should encode a CBOR item.
#[derive(Clone, Copy)]
pub struct Diagnostic<'a>(pub &'a [u8]);

impl WriteText for Diagnostic<'_> {
    fn write(&self, buf: &mut TextBuf) {
        write_item_or_error(buf, self.0, &check(self.0).result);
    }
}

/// Writes bytes as an item, or the error that `check` returned for them.
pub fn write_item_or_error(buf: &mut TextBuf, item: &[u8], checked: &Result<(), Fault>) {
    match checked {
        Ok(()) => write_value(buf, &mut Cursor::new(item), 1, DIAGNOSTIC, &[]),
        Err(fault) => {
            let numbers = [Some(u64::from(fault.kind.number())), Some(fault.at as u64)];
            buf.format(b"fault %d at %d", &numbers);
        }
    }
}

/// Writes a CBOR item in diagnostic notation: `{1: "usb", 2: [true, h'0aff', -7]}`. For bytes that aren't the canonical
/// encoding of an item, the number and the offset of the error are written: `fault 9 at 1`.
///
/// In strings, `"` and `\` are escaped with a backslash, and invisible characters as `\uNNNN` or `\u{NNNNNN}`.
pub fn show_item<T: Target>(writer: &mut T, item: &[u8]) -> Result<(), Failed>
    requires { T.failed writer.old < 2 ^ 64 - 1 }
    ensures { Writes T.taken T.failed (writer.old, writer.new) result }
{
    put_chunks(
        writer,
        &mut TextBuf::new(Detail::Explained),
        &Diagnostic(item),
    )
}

/// Writes the next item with its content. The bytes were checked before, so there is no error. In JSON, a map key that
/// is a number is written by name, if the key has a name.
#[cycle(write)]
pub fn write_value(
    buf: &mut TextBuf,
    cursor: &mut Cursor<'_>,
    level: u8,
    notation: &Notation,
    names: Names,
)
    requires low { 1 ≤ level }
    requires high { level ≤ 5 }
{
    match cursor.item(level) {
        Ok(Item::Array(count)) if level < 5 => {
            buf.text("[");
            write_decoded(buf, cursor, level + 1, notation, count, None);
            buf.text("]");
        }
        Ok(Item::Map(count)) if level < 5 => {
            buf.text("{");
            write_decoded(buf, cursor, level + 1, notation, count, Some(names));
            buf.text("}");
        }
        Ok(item) => write_scalar(buf, item, notation),
        Err(_) => buf.text("null"),
    }
}

/// Writes `count` items. In a map, each item follows its key.
#[cycle(write)]
fn write_decoded(
    buf: &mut TextBuf,
    cursor: &mut Cursor<'_>,
    level: u8,
    notation: &Notation,
    count: u64,
    names: Option<Names>,
)
    requires low { 1 ≤ level }
    requires high { level ≤ 5 }
{
    for index in 0..count {
        if buf.is_full() {
            break;
        }
        if index > 0 {
            buf.text(notation.comma);
        }
        if let Some(names) = names
            && let Ok(key) = cursor.item(level)
        {
            write_key(buf, key, notation, names);
        }
        write_value(buf, cursor, level, notation, &[]);
    }
}

/// Writes a map key. In JSON, a number is written as a string: its name, or else its digits.
fn write_key(buf: &mut TextBuf, key: Item<'_>, notation: &Notation, names: Names) {
    if let Item::Int(number) = key
        && notation.is_json
    {
        buf.text("\"");
        match name_in(names, number) {
            Some(name) => buf.text(name),
            None => buf.integer(number),
        }
        buf.text("\"");
    } else {
        write_scalar(buf, key, notation);
    }
    buf.text(notation.colon);
}

/// Writes an item that is neither an array nor a map.
pub fn write_scalar(buf: &mut TextBuf, item: Item<'_>, notation: &Notation) {
    match item {
        Item::Int(number) => buf.integer(number),
        Item::Bytes(bytes) => {
            buf.text(notation.bytes.0);
            buf.hex(bytes);
            buf.text(notation.bytes.1);
        }
        Item::Text(text) => write_text(buf, text, notation.is_json),
        Item::Bool(true) => buf.text("true"),
        Item::Bool(false) => buf.text("false"),
        Item::Array(_) | Item::Map(_) | Item::Null => buf.text("null"),
    }
}

/// Writes an untrusted text in quotation marks, with `"` and `\` escaped.
pub fn write_text(buf: &mut TextBuf, text: &str, is_json: bool) {
    buf.text("\"");
    if needs_no_escape(text.as_bytes()) {
        buf.bytes(text.as_bytes());
    } else {
        for c in text.chars() {
            // When the chunk is full, the rest of the text is dropped.
            if buf.is_full() {
                break;
            }
            match c {
                '"' => buf.text("\\\""),
                '\\' => buf.text("\\\\"),
                _ => write_char(buf, c, is_json),
            }
        }
    }
    buf.text("\"");
}
