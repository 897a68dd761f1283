//! Authenticator data, the COSE public key and the bytes that an authenticator signs, for ES256 credentials
//! (WebAuthn Level 2, sections 6.1, 6.5.1 and 8.2; RFC 8152, section 13.1.1).
//!
//! This crate neither hashes nor signs: the caller passes the SHA-256 hash of the RP ID. Nothing allocates.
//!
//! An example, which the gate runs (`crates/doc_examples/src/fido_authdata_example.rt`):
//!
//! ```text
//! let data = AuthData::assertion(&[0xa3; 32], true, 1);
//! let bytes = data.bytes();
//! assert!(rt; bytes.len() == 37);
//! let signed = to_sign(&data, &[0x22; 32]);
//! assert!(rt; signed.len() == 69);
//! ```
#![tactic(auto)]

mod auth_data;
mod cose;

pub use auth_data::{ASSERTION_LEN, AuthData, CREATED_LEN, TO_SIGN_MAX, to_sign};
pub use cose::{COSE_KEY_LEN, cose_key};
