//! The RP ID of a request.

ghost use Rattle.std.specs.Prelude.{◌≡◌, IfSome};
ghost use Rattle.session_walk.specs.Walks.{no_rp_id, rp_id_bytes};

use crate::map_iter::{item_at, value_at};
use ctap_cbor::Item;

/// Maximum length in bytes of an RP ID that is kept: that of a domain name.
const MAX_RP_ID_LEN: usize = 253;

/// An RP ID of at most 253 bytes, or none. A longer one is not kept.
#[derive(Clone, Copy)]
pub struct RpId {
    bytes: [u8; MAX_RP_ID_LEN],
    len: usize,
}

impl Default for RpId {
    /// Returns the value for a request without an RP ID.
    fn default() -> Self
        ensures { result ≡ no_rp_id }
    {
        RpId {
            bytes: [0; MAX_RP_ID_LEN],
            len: 0,
        }
    }
}

impl RpId {
    /// Returns the RP ID of a request, whose CBOR follows the command byte: `id` in member `rp` of
    /// authenticatorMakeCredential, or member `rpId` of authenticatorGetAssertion.
    pub fn of_request(command: u8, item: &[u8]) -> Self {
        let (map, key) = match command {
            0x01 => (value_at(item, Item::Int(2)), Item::Text("id")),
            0x02 => (Some(item), Item::Int(1)),
            _ => (None, Item::Null),
        };
        let mut rp_id = RpId::default();
        if let Some(map) = map
            && let Some(Item::Text(text)) = item_at(map, key)
            && text.len() <= MAX_RP_ID_LEN
        {
            rp_id.bytes[..text.len()].copy_from_slice(text.as_bytes());
            rp_id.len = text.len();
        }
        rp_id
    }

    /// Returns the bytes of the RP ID, or none if there is no RP ID.
    pub fn bytes(&self) -> &[u8]
        ensures { result.now ≡ rp_id_bytes self.now }
    {
        self.bytes.get(..self.len).unwrap_or(b"")
    }

    /// Returns the RP ID as text, or `None` without an RP ID.
    pub fn text(&self) -> Option<&str>
        ensures { IfSome result (λ text. text.now ≡ rp_id_bytes self.now) }
    {
        match std::str::from_utf8(self.bytes()) {
            Ok(text) if !text.is_empty() => Some(text),
            _ => None,
        }
    }
}
