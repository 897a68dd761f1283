//! Errors of decoding and encoding.

ghost use Rattle.std.specs.Prelude.{◌≡◌};
ghost use Rattle.ctap_cbor.specs.Items.{number_of};

use thiserror::Error;

/// An error kind. If several apply to an item, the first in the order of `specs/Items.antt` is reported.
#[derive(Clone, Copy, Debug, PartialEq, Eq, Error)]
pub enum Kind {
    /// The input ends before an item, or inside one.
    #[error("the input ends early")]
    Truncated = 1,
    /// Additional information 28 to 31: reserved, or an indefinite length.
    #[error("reserved or indefinite length")]
    Reserved = 2,
    /// A head that isn't in its shortest form.
    #[error("head not in its shortest form")]
    NotShortest = 3,
    /// An array or map that is inside four others.
    #[error("more than four levels deep")]
    TooDeep = 4,
    /// A map key that isn't an integer, a byte string or a text string.
    #[error("invalid type of a map key")]
    KeyType = 5,
    /// A map key out of order, or a duplicate map key.
    #[error("map keys out of order")]
    KeyOrder = 6,
    /// A text string that isn't valid UTF-8.
    #[error("not UTF-8")]
    NotUtf8 = 7,
    /// A tag, a float, or a simple value other than false, true and null.
    #[error("unsupported type")]
    Unsupported = 8,
    /// Trailing bytes after the item.
    #[error("bytes after the item")]
    Trailing = 9,
    /// An allocation failed. [`check`](crate::check) and [`Cursor`](crate::Cursor) never return this error.
    #[error("no memory")]
    Memory = 10,
}

impl Kind {
    /// Returns the error's number, 1 to 10, as the programs print it.
    pub fn number(self) -> u8
        ensures { result ≡ number_of self }
    {
        self as u8
    }
}

/// An error, and the position at which it was found.
#[derive(Clone, Copy, Debug, PartialEq, Eq, Error)]
#[error("{kind} at byte {at}")]
pub struct Fault {
    /// Position of the first byte of the invalid item, or of the first trailing byte, counted from 0.
    pub at: usize,
    pub kind: Kind,
}
