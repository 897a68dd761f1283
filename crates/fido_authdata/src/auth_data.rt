//! Authenticator data, and the bytes that an authenticator signs.

ghost use Rattle.std.specs.Prelude.{◌≡◌, ◌⊎◌, ◌+◌, ◌++◌, length};
ghost use Rattle.fido_authdata.specs.AuthData.{assertion_bytes, created_bytes};

use crate::cose::{COSE_KEY_LEN, cose_key};
use arrayvec::ArrayVec;
use byteorder::{BigEndian, ByteOrder};
use std::marker::Model;

/// Length of the authenticator data of an assertion, in bytes.
pub const ASSERTION_LEN: usize = 37;

/// Length of attested credential data, in bytes: AAGUID, ID length, ID and COSE key.
const ATTESTED_LEN: usize = 16 + 2 + 32 + COSE_KEY_LEN;

/// Length of the authenticator data of a new credential, in bytes.
pub const CREATED_LEN: usize = ASSERTION_LEN + ATTESTED_LEN;

/// Maximum length of the signed bytes: authenticator data, followed by a hash of 32 bytes.
pub const TO_SIGN_MAX: usize = CREATED_LEN + 32;

/// Flag: the user was present (UP, bit 0).
const USER_PRESENT: u8 = 0x01;

/// Flag: attested credential data is included (AT, bit 6).
const ATTESTED: u8 = 0x40;

/// Attested credential data with the coordinates of the public key (WebAuthn Level 2, section 6.5.1).
#[derive(Clone, Copy, Debug)]
struct AttestedCredential {
    aaguid: [u8; 16],
    id: [u8; 32],
    x: [u8; 32],
    y: [u8; 32],
}

/// Authenticator data (WebAuthn Level 2, section 6.1). In contracts, it is the list of its bytes.
#[derive(Clone, Debug, Drop)]
pub struct AuthData {
    rp_hash: [u8; 32],
    user_present: bool,
    counter: u32,
    attested: Option<AttestedCredential>,
}

impl Model for AuthData {
    ghost use Rattle.std.specs.Prelude.{ℕ, List};
    ghost use Rattle.fido_authdata.specs.AuthData.{auth_data_bytes};

    ghost Value = { List ℕ };

    ghost view = { λ d. auth_data_bytes d.rp_hash d.user_present d.counter d.attested };
}

impl AuthData {
    /// Creates the authenticator data of an assertion, from the SHA-256 hash of the RP ID, the UP flag and the
    /// signature counter after its increment.
    pub fn assertion(rp_hash: &[u8; 32], up: bool, counter: u32) -> Self
        ensures value { result ≡ assertion_bytes rp_hash.now up counter }
        ensures len { length result ≡ ASSERTION_LEN }
    {
        AuthData {
            rp_hash: *rp_hash,
            user_present: up,
            counter,
            attested: None,
        }
    }

    /// Creates the authenticator data of a new credential, from its ID, the coordinates of its public key, and the
    /// AAGUID. The flags are UP and AT (0x41), and the signature counter is 0.
    pub fn created(
        rp_hash: &[u8; 32],
        aaguid: &[u8; 16],
        id: &[u8; 32],
        x: &[u8; 32],
        y: &[u8; 32],
    ) -> Self
        ensures value { result ≡ created_bytes rp_hash.now aaguid.now id.now x.now y.now }
        ensures len { length result ≡ CREATED_LEN }
    {
        AuthData {
            rp_hash: *rp_hash,
            user_present: true,
            counter: 0,
            attested: Some(AttestedCredential {
                aaguid: *aaguid,
                id: *id,
                x: *x,
                y: *y,
            }),
        }
    }

    /// Returns the encoding of the authenticator data: 37 bytes for an assertion, or 164 bytes for a new credential.
    pub fn bytes(&self) -> ArrayVec<u8, CREATED_LEN>
        ensures value { result.items ≡ self.now }
        ensures len { (length result.items ≡ ASSERTION_LEN) ⊎ (length result.items ≡ CREATED_LEN) }
    {
        let present = if self.user_present { USER_PRESENT } else { 0 };
        let included = if self.attested.is_some() { ATTESTED } else { 0 };
        let mut counter = [0; 4];
        BigEndian::write_u32(&mut counter, self.counter);
        let mut bytes = ArrayVec::new();
        bytes.try_extend_from_slice(&self.rp_hash).unwrap();
        bytes.push(present | included);
        bytes.try_extend_from_slice(&counter).unwrap();
        let Some(attested) = &self.attested else {
            return bytes;
        };
        let mut id_length = [0; 2];
        BigEndian::write_u16(&mut id_length, attested.id.len() as u16);
        bytes.try_extend_from_slice(&attested.aaguid).unwrap();
        bytes.try_extend_from_slice(&id_length).unwrap();
        bytes.try_extend_from_slice(&attested.id).unwrap();
        bytes
            .try_extend_from_slice(&cose_key(&attested.x, &attested.y))
            .unwrap();
        bytes
    }
}

/// Returns the bytes to sign: the authenticator data, followed by the SHA-256 hash of the client data. They are the
/// same for an assertion (WebAuthn Level 2, section 6.3.3) and for packed self attestation (section 8.2). There are 69
/// bytes for an assertion, and 196 bytes for a new credential.
pub fn to_sign(auth_data: &AuthData, hash: &[u8; 32]) -> ArrayVec<u8, TO_SIGN_MAX>
    ensures value { result.items ≡ auth_data.now ++ hash.now }
    ensures len { (length result.items ≡ ASSERTION_LEN + 32) ⊎ (length result.items ≡ TO_SIGN_MAX) }
{
    let bytes = auth_data.bytes();
    let mut signed = ArrayVec::new();
    signed.try_extend_from_slice(bytes.as_slice()).unwrap();
    signed.try_extend_from_slice(hash).unwrap();
    signed
}
