//! Conversion of JSON values to WebIDL's 32-bit numbers. A string is parsed as a decimal number. A string with an
//! exponent or with any other text is converted to 0.

ghost use Rattle.std.specs.Prelude.{◌≤◌, length};

use crate::json::{Kind, inside, kind_of, next_value};
use crate::text::to_string_value;

/// Returns the integer part of a decimal number modulo 2^32, or 0 for other strings.
fn decimal(text: &[u8]) -> u32 {
    let (is_negative, digits) = match text.split_first() {
        Some((b'-', rest)) => (true, rest),
        Some((b'+', rest)) => (false, rest),
        _ => (false, text),
    };
    let mut number = 0u64;
    let mut is_fraction = false;
    for i in 0..digits.len() {
        match digits[i] {
            b'0'..=b'9' => {
                if !is_fraction {
                    number = (number % 0x1_0000_0000 * 10 + u64::from(digits[i] - b'0'))
                        % 0x1_0000_0000;
                }
            }
            b'.' => is_fraction = true,
            _ => return 0,
        }
    }
    let low = (number % 0x1_0000_0000) as u32;
    if is_negative {
        0u32.wrapping_sub(low)
    } else {
        low
    }
}

/// Converts a value to an unsigned long.
pub fn unsigned_long(value: &[u8]) -> u32 {
    match kind_of(value) {
        Kind::True => 1,
        Kind::False | Kind::Null | Kind::Object => 0,
        _ => match to_string_value(value) {
            Ok(text) => decimal(text.as_slice().trim_ascii()),
            Err(_) => 0,
        },
    }
}

/// Returns whether a value is truthy in ECMAScript.
pub fn boolean(value: &[u8]) -> bool {
    match kind_of(value) {
        Kind::False | Kind::Null => false,
        Kind::Text => value.len() > 2,
        Kind::Number => value.iter().any(|&digit| matches!(digit, b'1'..=b'9')),
        _ => true,
    }
}

/// Returns the number of items of an array.
pub fn count(array: &[u8]) -> usize
    ensures { result ≤ length array.now }
{
    let mut rest = inside(array);
    for place in 0..array.len() {
        let Some((_, after)) = next_value(rest) else {
            return place;
        };
        rest = after;
    }
    array.len()
}
