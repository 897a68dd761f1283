//! The names of map members and of some member values, in CTAP 2.1 and COSE.

use crate::standard::{ALGORITHMS, CURVES, KEY_TYPES, answer_names, key_names, request_names};
use session_walk::{Names, name_in};

/// Kinds of maps whose members have names.
#[derive(Clone, Copy)]
pub enum MapKind {
    /// The parameters of the command with this byte.
    Request(u8),
    /// The response to the command with this byte.
    Answer(u8),
    /// A COSE key of this type (RFC 9052, section 7), or of an unknown type if 0.
    Key(i128),
}

/// The key type of an octet key pair (RFC 9053, section 7).
const OKP: i128 = 1;

/// The key type of elliptic curves with x and y coordinates (RFC 9053, section 7).
const EC2: i128 = 2;

impl MapKind {
    /// Returns the names of the members of this kind of map.
    pub fn names(self) -> Names {
        match self {
            MapKind::Request(command) => request_names(command),
            MapKind::Answer(command) => answer_names(command),
            MapKind::Key(key_type) => key_names(key_type),
        }
    }

    /// Returns the name of a value of the member with this key, if it has one.
    pub fn name_of(self, key: i128, value: i128) -> Option<&'static str> {
        let MapKind::Key(key_type) = self else {
            return None;
        };
        match key {
            1 => name_in(KEY_TYPES, value),
            3 => name_in(ALGORITHMS, value),
            -1 if matches!(key_type, OKP | EC2) => name_in(CURVES, value),
            _ => None,
        }
    }
}
