//! Decoded items and map keys.

ghost use Rattle.std.specs.Prelude.{◌≡◌};
ghost use Rattle.std.specs.Option.{option_copied};
ghost use Rattle.ctap_cbor.specs.Tree.{as_bytes, as_text, as_int, as_uint, as_flag};
ghost use Rattle.ctap_cbor.specs.Views.{to_part, head_tree};

/// The head of a data item and, for a string, the content, which is borrowed from the message. The content of an array
/// or map follows in the message.
#[derive(Clone, Copy, Debug, PartialEq, Eq)]
pub enum Item<'a> {
    /// From -2^64 to 2^64-1.
    Int(i128),
    Bytes(&'a [u8]),
    Text(&'a str),
    /// An array with this number of items.
    Array(u64),
    /// A map with this number of pairs.
    Map(u64),
    Bool(bool),
    Null,
}

impl<'a> Item<'a> {
    /// Returns the content of a byte string, or None for other items.
    pub fn as_bytes(&self) -> Option<&'a [u8]>
        ensures { option_copied result ≡ as_bytes (head_tree (to_part self.now)) }
    {
        match *self {
            Item::Bytes(bytes) => Some(bytes),
            _ => None,
        }
    }

    /// Returns the content of a text string, or None for other items.
    pub fn as_text(&self) -> Option<&'a str>
        ensures { option_copied result ≡ as_text (head_tree (to_part self.now)) }
    {
        match *self {
            Item::Text(text) => Some(text),
            _ => None,
        }
    }

    /// Returns the value of an integer, or None for other items.
    pub fn as_int(&self) -> Option<i128>
        ensures { result ≡ as_int (head_tree (to_part self.now)) }
    {
        match *self {
            Item::Int(n) => Some(n),
            _ => None,
        }
    }

    /// Returns the value of an unsigned integer, or None for other items.
    pub fn as_uint(&self) -> Option<u64>
        ensures { result ≡ as_uint (head_tree (to_part self.now)) }
    {
        match *self {
            Item::Int(n) if 0 <= n && n <= 0xffff_ffff_ffff_ffff => Some(n as u64),
            _ => None,
        }
    }

    /// Returns the value of a Boolean, or None for other items.
    pub fn as_bool(&self) -> Option<bool>
        ensures { result ≡ as_flag (head_tree (to_part self.now)) }
    {
        match *self {
            Item::Bool(flag) => Some(flag),
            _ => None,
        }
    }
}

/// A map key, and its encoding, with which the next key is compared.
#[derive(Clone, Copy, Debug, PartialEq, Eq)]
pub struct Key<'a> {
    pub item: Item<'a>,
    pub bytes: &'a [u8],
}
