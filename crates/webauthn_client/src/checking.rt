//! Validates JSON (RFC 8259) in one pass. The open brackets are stored as bits.

use std::str::from_utf8;

/// Maximum nesting depth of arrays and objects.
const MAX_NESTING: u8 = 64;

/// The state inside a number.
#[derive(Clone, Copy)]
enum NumberState {
    Minus,
    Zero,
    Whole,
    Point,
    Fraction,
    E,
    Sign,
    Exponent,
}

/// The tokens that may come next.
#[derive(Clone, Copy)]
enum ExpectedToken {
    Value,
    ItemOrEnd,
    Key,
    KeyOrEnd,
    Colon,
    Next,
    Text(bool),
    Escape(bool),
    Hex(bool, u8),
    Word(&'static [u8]),
    Number(NumberState),
}

/// The state of the validation. Each open bracket is a bit, which is 1 for an object. The innermost bracket is the
/// lowest bit.
#[derive(Clone, Copy)]
struct Checker {
    at: ExpectedToken,
    open: u64,
    levels: u8,
}

impl Checker {
    /// Returns the state in which these tokens may come next.
    fn expecting(self, at: ExpectedToken) -> Option<Checker> {
        Some(Checker { at, ..self })
    }

    /// Returns whether the innermost open bracket is that of an object.
    fn is_in_object(self) -> bool {
        self.levels > 0 && self.open % 2 == 1
    }

    /// Handles an opening bracket.
    fn begin(self, is_object: bool) -> Option<Checker> {
        if self.levels >= MAX_NESTING {
            return None;
        }
        let bit = if is_object { 1 } else { 0 };
        Some(Checker {
            at: if is_object {
                ExpectedToken::KeyOrEnd
            } else {
                ExpectedToken::ItemOrEnd
            },
            open: self.open % 0x8000_0000_0000_0000 * 2 + bit,
            levels: self.levels + 1,
        })
    }

    /// Handles a closing bracket.
    fn close(self, is_object: bool) -> Option<Checker> {
        if self.levels == 0 || self.is_in_object() != is_object {
            return None;
        }
        Some(Checker {
            at: ExpectedToken::Next,
            open: self.open / 2,
            levels: self.levels - 1,
        })
    }

    /// Handles the first byte of a value.
    fn value(self, byte: u8) -> Option<Checker> {
        match byte {
            b'"' => self.expecting(ExpectedToken::Text(false)),
            b'{' => self.begin(true),
            b'[' => self.begin(false),
            b't' => self.expecting(ExpectedToken::Word(b"rue")),
            b'f' => self.expecting(ExpectedToken::Word(b"alse")),
            b'n' => self.expecting(ExpectedToken::Word(b"ull")),
            b'-' => self.expecting(ExpectedToken::Number(NumberState::Minus)),
            b'0' => self.expecting(ExpectedToken::Number(NumberState::Zero)),
            b'1'..=b'9' => self.expecting(ExpectedToken::Number(NumberState::Whole)),
            _ => None,
        }
    }

    /// Handles a byte after a complete value.
    fn after(self, byte: u8) -> Option<Checker> {
        match byte {
            b' ' | b'\t' | b'\n' | b'\r' => self.expecting(ExpectedToken::Next),
            b',' => {
                if self.levels == 0 {
                    return None;
                }
                self.expecting(if self.is_in_object() {
                    ExpectedToken::Key
                } else {
                    ExpectedToken::Value
                })
            }
            b'}' => self.close(true),
            b']' => self.close(false),
            _ => None,
        }
    }

    /// Handles a byte of a string or key.
    fn text(self, is_key: bool, byte: u8) -> Option<Checker> {
        match byte {
            b'"' => self.expecting(if is_key {
                ExpectedToken::Colon
            } else {
                ExpectedToken::Next
            }),
            b'\\' => self.expecting(ExpectedToken::Escape(is_key)),
            0..=31 => None,
            _ => Some(self),
        }
    }

    /// Handles the byte after a backslash.
    fn escape(self, is_key: bool, byte: u8) -> Option<Checker> {
        match byte {
            b'"' | b'\\' | b'/' | b'b' | b'f' | b'n' | b'r' | b't' => self.expecting(
                ExpectedToken::Text(is_key),
            ),
            b'u' => self.expecting(ExpectedToken::Hex(is_key, 3)),
            _ => None,
        }
    }

    /// Handles a hexadecimal digit of a `\u` escape, after which `left` more digits must follow.
    fn hex(self, is_key: bool, left: u8, byte: u8) -> Option<Checker> {
        if !byte.is_ascii_hexdigit() {
            return None;
        }
        if left == 0 {
            return self.expecting(ExpectedToken::Text(is_key));
        }
        self.expecting(ExpectedToken::Hex(is_key, left - 1))
    }

    /// Handles a letter in `true`, `false` or `null`.
    fn word(self, rest: &'static [u8], byte: u8) -> Option<Checker> {
        let (first, rest) = rest.split_first()?;
        if *first != byte {
            return None;
        }
        self.expecting(if rest.is_empty() {
            ExpectedToken::Next
        } else {
            ExpectedToken::Word(rest)
        })
    }

    /// Handles a byte in a number, or the byte after a number.
    fn number(self, digits: NumberState, byte: u8) -> Option<Checker> {
        let next = match (digits, byte) {
            (NumberState::Minus, b'0') => NumberState::Zero,
            (NumberState::Minus, b'1'..=b'9') => NumberState::Whole,
            (NumberState::Whole, b'0'..=b'9') => NumberState::Whole,
            (NumberState::Zero | NumberState::Whole, b'.') => NumberState::Point,
            (NumberState::Point | NumberState::Fraction, b'0'..=b'9') => NumberState::Fraction,
            (NumberState::Zero | NumberState::Whole | NumberState::Fraction, b'e' | b'E') =>
                NumberState::E,
            (NumberState::E, b'+' | b'-') => NumberState::Sign,
            (NumberState::E | NumberState::Sign | NumberState::Exponent, b'0'..=b'9') =>
                NumberState::Exponent,
            _ => {
                if !ends(digits) {
                    return None;
                }
                return self.after(byte);
            }
        };
        self.expecting(ExpectedToken::Number(next))
    }

    /// Handles a byte.
    fn step(self, byte: u8) -> Option<Checker> {
        let is_space = matches!(byte, b' ' | b'\t' | b'\n' | b'\r');
        match self.at {
            ExpectedToken::Text(is_key) => self.text(is_key, byte),
            ExpectedToken::Escape(is_key) => self.escape(is_key, byte),
            ExpectedToken::Hex(is_key, left) => self.hex(is_key, left, byte),
            ExpectedToken::Word(rest) => self.word(rest, byte),
            ExpectedToken::Number(digits) => self.number(digits, byte),
            ExpectedToken::Next => self.after(byte),
            _ => {
                if is_space {
                    return Some(self);
                }
                self.begins(byte)
            }
        }
    }

    /// Handles the first byte of a key or value, or a colon.
    fn begins(self, byte: u8) -> Option<Checker> {
        match (self.at, byte) {
            (ExpectedToken::Colon, b':') => self.expecting(ExpectedToken::Value),
            (ExpectedToken::Colon, _) => None,
            (ExpectedToken::Key | ExpectedToken::KeyOrEnd, b'"') => self.expecting(
                ExpectedToken::Text(true),
            ),
            (ExpectedToken::KeyOrEnd, b'}') => self.close(true),
            (ExpectedToken::Key | ExpectedToken::KeyOrEnd, _) => None,
            (ExpectedToken::ItemOrEnd, b']') => self.close(false),
            _ => self.value(byte),
        }
    }

    /// Returns whether the input may end here.
    fn is_done(self) -> bool {
        self.levels == 0
            && match self.at {
                ExpectedToken::Next => true,
                ExpectedToken::Number(digits) => ends(digits),
                _ => false,
            }
    }
}

/// Returns whether a number may end in this state.
fn ends(digits: NumberState) -> bool {
    matches!(
        digits,
        NumberState::Zero | NumberState::Whole | NumberState::Fraction | NumberState::Exponent
    )
}

/// Returns whether the bytes are exactly one JSON value in UTF-8, with at most 64 levels of nesting.
pub fn is_json(text: &[u8]) -> bool {
    if from_utf8(text).is_err() {
        return false;
    }
    let mut checker = Checker {
        at: ExpectedToken::Value,
        open: 0,
        levels: 0,
    };
    for i in 0..text.len() {
        match checker.step(text[i]) {
            Some(next) => checker = next,
            None => return false,
        }
    }
    checker.is_done()
}
