//! The names of numbers in CTAP 2.1, and the descriptions of CBOR errors. Callers write a number without a name in
//! digits.

use crate::standard::{ERRORS, KEEPALIVES, STATUSES, request_names};
use crate::text_buf::TextBuf;
use session_walk::{COMMANDS, MESSAGES, Names, name_in};

/// Returns the name of a number for this mark in a format (`TextBuf::format`).
pub fn name_for(mark: u8, number: u64) -> Option<&'static str> {
    let names = match mark {
        b'S' | b'a' | b's' => STATUSES,
        b'E' | b'e' => ERRORS,
        b'C' | b'c' => COMMANDS,
        b'M' | b'm' => MESSAGES,
        b'K' => KEEPALIVES,
        b'f' => FAULTS,
        b'p' => {
            let [.., command, parameter] = number.to_be_bytes();
            return name_in(request_names(command), i128::from(parameter));
        }
        _ => return None,
    };
    match name_in(names, i128::from(number)) {
        None if mark == b's' => Some("status"),
        None if mark == b'e' => Some("ERROR"),
        name => name,
    }
}

/// Writes two spaces and a name, if there is a name and texts are explained.
pub fn write_name(buf: &mut TextBuf, name: Option<&str>) {
    if let Some(name) = name
        && buf.explains
    {
        buf.text("  ");
        buf.text(name);
    }
}

/// The descriptions of CBOR errors, by number.
pub static FAULTS: Names = &[
    (1, "Truncated: the item ends early"),
    (2, "Reserved: a length that is reserved or indefinite"),
    (
        3,
        "NotShortest: a number or a length that has a shorter encoding",
    ),
    (4, "TooDeep: an array or a map within four others"),
    (
        5,
        "KeyType: a map's key that is no integer, byte string or text",
    ),
    (
        6,
        "KeyOrder: a map's key that isn't above the one before it",
    ),
    (7, "NotUtf8: a text that isn't UTF-8"),
    (8, "Unsupported: a tag, a float or a simple value"),
    (9, "Trailing: bytes after the item"),
    (10, "Memory: no memory"),
];

/// The bits of a flags byte, and their names.
pub type Flags = &'static [(u8, &'static str)];

/// Writes a byte of flags, and the names of the flags that are set.
pub fn write_flags(buf: &mut TextBuf, flags: u8, letters: Flags) {
    buf.hex(&[flags]);
    for (flag, name) in letters {
        if flags & *flag != 0 {
            buf.text(name);
        }
    }
}
