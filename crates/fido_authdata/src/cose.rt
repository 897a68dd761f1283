//! The COSE key of a credential.

ghost use Rattle.std.specs.Prelude.{◌≡◌};
ghost use Rattle.fido_authdata.specs.AuthData.{cose_key_bytes};

use arrayvec::ArrayVec;

/// Length of the COSE key of an ES256 credential, in bytes.
pub const COSE_KEY_LEN: usize = 77;

/// The head of the map and its members, up to the head of the x coordinate.
const COSE_KEY_BEFORE_X: [u8; 10] = [
    0xA5, // a map of five pairs
    0x01, 0x02, // kty (1): EC2 (2)
    0x03, 0x26, // alg (3): ES256 (-7)
    0x20, 0x01, // crv (-1): P-256 (1)
    0x21, 0x58, 0x20, // x (-2): a byte string of 32 bytes
];

/// The label of the y coordinate, and the head of the byte string with the y coordinate.
const COSE_KEY_BEFORE_Y: [u8; 3] = [
    0x22, 0x58, 0x20, // y (-3): a byte string of 32 bytes
];

/// Encodes an ES256 public key as a COSE key: the map `{1: 2, 3: -7, -1: 1, -2: x, -3: y}` in canonical CBOR (RFC 8152,
/// section 13.1.1; CTAP 2.1, section 8).
pub fn cose_key(x: &[u8; 32], y: &[u8; 32]) -> [u8; COSE_KEY_LEN]
    ensures { result ≡ cose_key_bytes x.now y.now }
{
    let mut key: ArrayVec<u8, COSE_KEY_LEN> = ArrayVec::new();
    key.try_extend_from_slice(&COSE_KEY_BEFORE_X).unwrap();
    key.try_extend_from_slice(x).unwrap();
    key.try_extend_from_slice(&COSE_KEY_BEFORE_Y).unwrap();
    key.try_extend_from_slice(y).unwrap();
    key.into_inner().unwrap()
}
