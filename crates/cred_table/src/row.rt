//! A credential.

ghost use Rattle.std.specs.Prelude.{◌≡◌};

use crate::name::Name;
use arrayvec::ArrayVec;

/// A row of a credential table: a public key credential source (WebAuthn Level 2, section 4) with an ES256 key pair,
/// without the private key.
#[derive(Clone, Debug, Default, Drop)]
pub struct Row {
    /// The SHA-256 hash of the RP ID.
    pub rp: [u8; 32],
    /// The credential ID.
    pub id: [u8; 32],
    /// The x coordinate of the public key on P-256.
    pub x: [u8; 32],
    /// The y coordinate of the public key on P-256.
    pub y: [u8; 32],
    /// The user handle, 0 to 64 bytes.
    pub user: ArrayVec<u8, 64>,
    /// Whether the credential is discoverable.
    pub discoverable: bool,
    /// The signature counter.
    pub counter: u32,
    /// The user's name, truncated to 64 bytes; empty if the request contains no name.
    pub name: Name,
}

impl Row {
    ghost use Rattle.cred_table.specs.Rows.{is_named, is_listed, is_user};

    /// Returns whether the credential belongs to the RP and has this ID.
    pub(crate) fn is_named(&self, rp: &[u8; 32], id: &[u8]) -> bool
        ensures { result ≡ is_named rp.now id.now self.now }
    {
        self.id.as_slice() == id && self.rp == *rp
    }

    /// Returns whether the credential is discoverable and belongs to the RP.
    pub(crate) fn is_listed(&self, rp: &[u8; 32]) -> bool
        ensures { result ≡ is_listed rp.now self.now }
    {
        self.discoverable && self.rp == *rp
    }

    /// Returns whether this is the RP's discoverable credential for the user.
    pub(crate) fn is_user(&self, rp: &[u8; 32], user: &[u8]) -> bool
        ensures { result ≡ is_user rp.now user.now self.now }
    {
        self.is_listed(rp) && self.user.as_slice() == user
    }
}
