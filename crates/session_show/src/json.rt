//! Members of JSON objects (RFC 8259), each preceded by a comma. Members without a value are omitted.

use crate::item::write_text;
use crate::text_buf::TextBuf;

/// Writes the name of a member. The value has to follow.
fn begin_member(buf: &mut TextBuf, name: &str) {
    buf.text(",\"");
    buf.text(name);
    buf.text("\":");
}

/// Writes a string member.
pub fn write_string(buf: &mut TextBuf, name: &str, text: Option<&str>) {
    if let Some(text) = text {
        begin_member(buf, name);
        write_text(buf, text, true);
    }
}

/// Writes a member whose value is a byte string, as hexadecimal digits.
pub fn write_hex(buf: &mut TextBuf, name: &str, bytes: &[u8]) {
    begin_member(buf, name);
    buf.text("\"");
    buf.hex(bytes);
    buf.text("\"");
}
