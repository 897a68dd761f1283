//! The lines for members of maps, and for the bytes decoded from them.

use crate::chunked::WriteText;
use crate::item::{DIAGNOSTIC, Diagnostic, write_scalar, write_value};
use crate::member_names::MapKind;
use crate::status_names::write_name;
use crate::text_buf::TextBuf;
use ctap_cbor::{Cursor, Item};
use session_walk::name_in;

/// Writes a member: its key, its name, if any, its value, which was checked before, and the meaning of the value.
pub fn write_member(buf: &mut TextBuf, map: MapKind, key: Item<'_>, value: &[u8]) {
    write_scalar(buf, key, DIAGNOSTIC);
    if let Item::Int(number) = key
        && let Some(name) = name_in(map.names(), number)
    {
        buf.text(" ");
        buf.text(name);
    }
    buf.text(": ");
    write_value(buf, &mut Cursor::new(value), 1, DIAGNOSTIC, &[]);
    if let Item::Int(number) = key
        && let Ok(Item::Int(value)) = Cursor::new(value).item(1)
    {
        write_name(buf, map.name_of(number, value));
    }
    buf.text("\n");
}

/// Writes the line of a byte field in hexadecimal digits. The line begins with the line number.
pub fn write_bytes(buf: &mut TextBuf, format: &[u8], number: u64, bytes: &[u8]) {
    buf.format(format, &[Some(number)]);
    buf.hex(bytes);
    buf.text("\n");
}

/// Writes the line of a CBOR field, or a line that the field is missing. The line begins with the line number.
pub fn write_item(buf: &mut TextBuf, format: &[u8], number: u64, item: &[u8]) {
    buf.format(format, &[Some(number)]);
    if item.is_empty() {
        buf.text("missing");
    } else {
        Diagnostic(item).write(buf);
    }
    buf.text("\n");
}

/// Returns the integer at the beginning of a DER signature, and the rest of the signature (RFC 3279, section 2.2.3).
/// The integer must not be negative, and must be encoded in as few bytes as possible.
fn first_number(bytes: &[u8]) -> Option<(&[u8], &[u8])> {
    let [2, len, rest @ ..] = bytes else {
        return None;
    };
    let Some((number, rest)) = rest.split_at_checked(usize::from(*len)) else {
        return None;
    };
    match number {
        [0] | [1..=127, ..] | [0, 128..=255, ..] => Some((number, rest)),
        _ => None,
    }
}

/// Writes a line for each of the two integers in an ASN.1 signature, if the signature is well-formed.
pub fn write_signature(buf: &mut TextBuf, number: u64, signature: &[u8]) {
    let [0x30, len, rest @ ..] = signature else {
        return;
    };
    if usize::from(*len) != rest.len() {
        return;
    }
    if let Some((r, rest)) = first_number(rest)
        && let Some((s, [])) = first_number(rest)
    {
        write_bytes(buf, b"%d       r ", number, r);
        write_bytes(buf, b"%d       s ", number, s);
    }
}
