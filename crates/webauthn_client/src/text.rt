//! ECMAScript's conversion of JSON values to strings.

ghost use Rattle.std.specs.Prelude.{◌≡◌, ◌<◌, ◌++◌, OnOk};

use crate::json::{Kind, inside, kind_of, next_value};
use crate::rejection::{Rejection, range_error, too_long};
use arrayvec::ArrayVec;

/// A buffer for a text in UTF-8 or other bytes.
pub type Text = ArrayVec<u8, 2048>;

/// The state of a string parser.
#[derive(Clone, Copy)]
enum Mode {
    Plain,
    Escape,
    Hex(u8),
}

/// A string parser, with the UTF-16 code unit of the current escape, and the preceding high surrogate, or 0.
#[derive(Clone, Copy)]
struct Reader {
    mode: Mode,
    unit: u32,
    high: u32,
}

/// Appends bytes.
pub fn push(out: &mut Text, bytes: &[u8]) -> Result<(), Rejection>
    ensures { OnOk result (out.new.items ≡ out.old.items ++ bytes.now) }
{
    if out.try_extend_from_slice(bytes).is_err() {
        return Err(too_long());
    }
    Ok(())
}

/// Returns the value of a hexadecimal digit, or 0 for other bytes.
fn hex_value(letter: u8) -> u32
    ensures { result < 16 }
{
    match letter {
        b'0'..=b'9' => u32::from(letter - b'0'),
        b'a'..=b'f' => u32::from(letter - b'a' + 10),
        b'A'..=b'F' => u32::from(letter - b'A' + 10),
        _ => 0,
    }
}

/// Returns the byte for a one-letter escape.
fn escaped(letter: u8) -> u8 {
    match letter {
        b'b' => 8,
        b'f' => 12,
        b'n' => 10,
        b'r' => 13,
        b't' => 9,
        _ => letter,
    }
}

/// Appends a code point as UTF-8.
fn push_code(out: &mut Text, code: u32) -> Result<(), Rejection> {
    let last = (code % 64 + 128) as u8;
    let third = (code / 64 % 64 + 128) as u8;
    let second = (code / 4096 % 64 + 128) as u8;
    if code < 0x80 {
        push(out, &[(code % 128) as u8])
    } else if code < 0x800 {
        push(out, &[(code / 64 % 32 + 192) as u8, last])
    } else if code < 0x1_0000 {
        push(out, &[(code / 4096 % 16 + 224) as u8, third, last])
    } else {
        push(
            out,
            &[(code / 262_144 % 8 + 240) as u8, second, third, last],
        )
    }
}

impl Reader {
    /// Appends U+FFFD for an unpaired high surrogate.
    fn flush(self, out: &mut Text) -> Result<(), Rejection> {
        if self.high == 0 {
            return Ok(());
        }
        push_code(out, 0xfffd)
    }

    /// Handles a complete UTF-16 code unit.
    fn unit(self, unit: u32, out: &mut Text) -> Result<Reader, Rejection> {
        let mut next = Reader {
            mode: Mode::Plain,
            unit: 0,
            high: 0,
        };
        if 0xdc00 <= unit && unit < 0xe000 && self.high != 0 {
            push_code(out, self.high % 0x400 * 0x400 + unit % 0x400 + 0x1_0000)?;
            return Ok(next);
        }
        self.flush(out)?;
        if 0xd800 <= unit && unit < 0xdc00 {
            next.high = unit;
        } else if 0xdc00 <= unit && unit < 0xe000 {
            push_code(out, 0xfffd)?;
        } else {
            push_code(out, unit)?;
        }
        Ok(next)
    }

    /// Handles a byte.
    fn step(self, byte: u8, out: &mut Text) -> Result<Reader, Rejection> {
        match self.mode {
            Mode::Plain => {
                if byte == b'\\' {
                    return Ok(Reader {
                        mode: Mode::Escape,
                        ..self
                    });
                }
                self.plain(byte, out)
            }
            Mode::Escape => {
                if byte == b'u' {
                    return Ok(Reader {
                        mode: Mode::Hex(3),
                        unit: 0,
                        high: self.high,
                    });
                }
                self.plain(escaped(byte), out)
            }
            Mode::Hex(left) => {
                let unit = self.unit % 0x1000 * 16 + hex_value(byte);
                if left == 0 {
                    return self.unit(unit, out);
                }
                Ok(Reader {
                    mode: Mode::Hex(left - 1),
                    unit,
                    high: self.high,
                })
            }
        }
    }

    /// Handles a byte outside of escapes.
    fn plain(self, byte: u8, out: &mut Text) -> Result<Reader, Rejection> {
        self.flush(out)?;
        push(out, &[byte])?;
        Ok(Reader {
            mode: Mode::Plain,
            unit: 0,
            high: 0,
        })
    }
}

/// Appends the content of a JSON string.
fn push_string(value: &[u8], out: &mut Text) -> Result<(), Rejection> {
    let mut reader = Reader {
        mode: Mode::Plain,
        unit: 0,
        high: 0,
    };
    if value.len() >= 2 {
        for i in 1..value.len() - 1 {
            reader = reader.step(value[i], out)?;
        }
    }
    reader.flush(out)
}

/// Appends a value that isn't an array, converted to a string.
fn push_scalar(value: &[u8], out: &mut Text) -> Result<(), Rejection> {
    match kind_of(value) {
        Kind::Text => push_string(value, out),
        Kind::Object => push(out, b"[object Object]"),
        _ => push(out, value),
    }
}

/// Appends a value, converted to a string. Fails for an array inside an array.
pub fn push_value(value: &[u8], out: &mut Text) -> Result<(), Rejection> {
    if kind_of(value) != Kind::Array {
        return push_scalar(value, out);
    }
    let mut rest = inside(value);
    for place in 0..value.len() {
        let Some((item, after)) = next_value(rest) else {
            break;
        };
        if place > 0 {
            push(out, b",")?;
        }
        match kind_of(item) {
            Kind::Null => {}
            Kind::Array => {
                return Err(range_error("an array inside an array can't be converted to a string"));
            }
            _ => push_scalar(item, out)?,
        }
        rest = after;
    }
    Ok(())
}

/// Converts a value to a string.
pub fn to_string_value(value: &[u8]) -> Result<Text, Rejection> {
    let mut text = Text::new();
    push_value(value, &mut text)?;
    Ok(text)
}

/// Returns whether a value is converted to this string.
pub fn is_word(value: &[u8], word: &str) -> bool {
    if kind_of(value) == Kind::Text && !value.contains(&b'\\') {
        return value.get(1..value.len().saturating_sub(1)) == Some(word.as_bytes());
    }
    match to_string_value(value) {
        Ok(text) => text.as_slice() == word.as_bytes(),
        Err(_) => false,
    }
}

/// Returns whether an object's key is this name.
pub fn is_named(key: &[u8], name: &str) -> bool {
    if key.len() == name.len() + 2 && &key[1..key.len() - 1] == name.as_bytes() {
        return true;
    }
    key.contains(&b'\\') && is_word(key, name)
}
