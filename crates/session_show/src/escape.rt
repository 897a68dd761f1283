//! Escapes untrusted text, so that it can't hide or move the text before and after it.

use crate::text_buf::TextBuf;

/// Characters that are invisible or change the position of others: control characters, line breaks, and characters that
/// fonts leave blank (Unicode's Default_Ignorable_Code_Point, U+FFF9 to U+FFFB, and the blank Braille pattern).
static INVISIBLE_CHARS: &[(char, char)] = &[
    ('\0', '\u{1f}'),
    ('\u{7f}', '\u{9f}'),
    ('\u{ad}', '\u{ad}'),
    ('\u{34f}', '\u{34f}'),
    ('\u{61c}', '\u{61c}'),
    ('\u{115f}', '\u{1160}'),
    ('\u{17b4}', '\u{17b5}'),
    ('\u{180b}', '\u{180f}'),
    ('\u{200b}', '\u{200f}'),
    ('\u{2028}', '\u{202e}'),
    ('\u{2060}', '\u{206f}'),
    ('\u{2800}', '\u{2800}'),
    ('\u{3164}', '\u{3164}'),
    ('\u{fe00}', '\u{fe0f}'),
    ('\u{feff}', '\u{feff}'),
    ('\u{ffa0}', '\u{ffa0}'),
    ('\u{fff0}', '\u{fffb}'),
    ('\u{1bca0}', '\u{1bca3}'),
    ('\u{1d173}', '\u{1d17a}'),
    ('\u{e0000}', '\u{e0fff}'),
];

/// Returns whether a character is invisible or changes the position of others.
pub fn is_invisible(c: char) -> bool {
    for (first, last) in INVISIBLE_CHARS {
        if *first <= c && c <= *last {
            return true;
        }
    }
    false
}

/// Returns whether a text needs no escaping: it is printable ASCII without characters that JSON escapes. Most texts
/// are.
pub fn needs_no_escape(bytes: &[u8]) -> bool {
    for byte in bytes {
        if !matches!(byte, b' ' | b'!' | b'#'..=b'[' | b']'..=b'~') {
            return false;
        }
    }
    true
}

/// Writes a character. An invisible character is written as `\u` and four digits; if more digits are needed, they are
/// in braces, or in JSON there is a surrogate pair. In the fixed text, only characters below U+0020 and U+007F are
/// escaped.
pub fn write_char(buf: &mut TextBuf, c: char, is_json: bool) {
    let is_escaped = if buf.explains {
        is_invisible(c)
    } else {
        matches!(c, '\0'..='\u{1f}' | '\u{7f}')
    };
    if !is_escaped {
        buf.text(c.encode_utf8(&mut [0; 4]));
        return;
    }
    let [_, plane, high, low] = (c as u32).to_be_bytes();
    if plane == 0 {
        buf.escape(high, low);
    } else if is_json {
        for unit in c.encode_utf16(&mut [0; 2]) {
            let [high, low] = unit.to_be_bytes();
            buf.escape(high, low);
        }
    } else {
        buf.text("\\u{");
        buf.hex(&[plane, high, low]);
        buf.text("}");
    }
}

/// Writes untrusted bytes as text, with invisible characters escaped. If the bytes aren't UTF-8, each byte outside
/// ASCII is written as `\x` and two digits.
pub fn write_escaped(buf: &mut TextBuf, line: &[u8]) {
    if needs_no_escape(line) {
        buf.bytes(line);
        return;
    }
    let Ok(text) = std::str::from_utf8(line) else {
        for byte in line {
            if *byte < 128 {
                write_char(buf, char::from(*byte), false);
            } else {
                buf.format(b"\\x%x", &[Some(u64::from(*byte))]);
            }
        }
        return;
    };
    for c in text.chars() {
        write_char(buf, c, false);
    }
}
