//! Reads JSON in place. A value is a slice of a text that `is_json` accepted.

ghost use Rattle.std.specs.Prelude.{◌≡◌, ◌≤◌, ◌<◌, length};

use crate::text::is_named;

/// The type of a JSON value.
#[derive(Clone, Copy, Debug, PartialEq, Eq)]
pub enum Kind {
    Text,
    Object,
    Array,
    True,
    False,
    Null,
    Number,
}

/// The state of a scan: the number of open arrays and objects, whether the scan is inside a string, and whether the
/// last byte was a backslash there.
#[derive(Clone, Copy)]
struct Scan {
    depth: usize,
    is_text: bool,
    is_escaped: bool,
}

/// The result of scanning one byte.
enum Scanned {
    On(Scan),
    EndsBehind,
    EndsBefore,
}

/// Returns the type of a value.
pub fn kind_of(value: &[u8]) -> Kind {
    match value.first() {
        Some(b'"') => Kind::Text,
        Some(b'{') => Kind::Object,
        Some(b'[') => Kind::Array,
        Some(b't') => Kind::True,
        Some(b'f') => Kind::False,
        Some(b'n') => Kind::Null,
        _ => Kind::Number,
    }
}

/// Returns whether a byte is white space, a comma or a colon.
fn is_separator(byte: u8) -> bool {
    matches!(byte, b' ' | b'\t' | b'\n' | b'\r' | b',' | b':')
}

/// Scans a byte of a string.
fn scan_text(scan: Scan, byte: u8) -> Scanned {
    if scan.is_escaped {
        return Scanned::On(Scan {
            is_escaped: false,
            ..scan
        });
    }
    if byte == b'\\' {
        return Scanned::On(Scan {
            is_escaped: true,
            ..scan
        });
    }
    if byte != b'"' {
        return Scanned::On(scan);
    }
    if scan.depth == 0 {
        return Scanned::EndsBehind;
    }
    Scanned::On(Scan {
        is_text: false,
        ..scan
    })
}

/// Scans a closing bracket.
fn scan_close(scan: Scan) -> Scanned {
    if scan.depth == 0 {
        return Scanned::EndsBefore;
    }
    if scan.depth == 1 {
        return Scanned::EndsBehind;
    }
    Scanned::On(Scan {
        depth: scan.depth - 1,
        ..scan
    })
}

/// Scans a byte.
fn scan_byte(scan: Scan, byte: u8) -> Scanned {
    if scan.is_text {
        return scan_text(scan, byte);
    }
    match byte {
        b'"' => Scanned::On(Scan {
            is_text: true,
            ..scan
        }),
        b'{' | b'[' => Scanned::On(Scan {
            depth: scan.depth.saturating_add(1),
            ..scan
        }),
        b'}' | b']' => scan_close(scan),
        _ => {
            if scan.depth == 0 && is_separator(byte) {
                Scanned::EndsBefore
            } else {
                Scanned::On(scan)
            }
        }
    }
}

/// Returns the length of the value at the beginning of the text.
fn value_len(text: &[u8]) -> usize
    ensures { result ≤ length text.now }
{
    let mut scan = Scan {
        depth: 0,
        is_text: false,
        is_escaped: false,
    };
    for i in 0..text.len() {
        match scan_byte(scan, text[i]) {
            Scanned::On(next) => scan = next,
            Scanned::EndsBehind => return i + 1,
            Scanned::EndsBefore => return i,
        }
    }
    text.len()
}

/// Returns the number of white space bytes, commas and colons at the beginning of the text.
fn separator_len(text: &[u8]) -> usize
    ensures { result ≤ length text.now }
{
    for i in 0..text.len() {
        if !is_separator(text[i]) {
            return i;
        }
    }
    text.len()
}

/// Returns the value at the beginning of the text and the rest of the text, or None at the end of an array or object.
pub fn next_value<'a>(text: &'a [u8]) -> Option<(&'a [u8], &'a [u8])> {
    let text = &text[separator_len(text)..];
    let len = value_len(text);
    if len == 0 {
        return None;
    }
    Some(text.split_at(len))
}

/// Returns the text after the opening bracket of an array or object, or an empty slice for other values.
pub fn inside(value: &[u8]) -> &[u8] {
    match value.split_first() {
        Some((b'{' | b'[', rest)) => rest,
        _ => b"",
    }
}

/// Returns the value of an object's member by name. If the name occurs several times, the last value is returned.
/// Returns None if the value isn't an object or has no member of this name.
pub fn member<'a>(object: &'a [u8], name: &str) -> Option<&'a [u8]> {
    if kind_of(object) != Kind::Object {
        return None;
    }
    let mut found = None;
    let mut rest = inside(object);
    for _ in 0..object.len() {
        let Some((key, after_key)) = next_value(rest) else {
            break;
        };
        let Some((value, after_value)) = next_value(after_key) else {
            break;
        };
        if is_named(key, name) {
            found = Some(value);
        }
        rest = after_value;
    }
    found
}
