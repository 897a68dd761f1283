//! The replies of the caller: user presence, key pairs and signatures.

ghost use Rattle.std.specs.Prelude.{◌≡◌, ◌≤◌, ◌++◌, ◌↔◌, drop, length, IsSome, IfSome};
ghost use Rattle.authn_core.specs.Padded.{padded};

use std::marker::Model;

/// A user presence reply.
#[derive(Clone, Copy, Debug, PartialEq, Eq)]
pub enum Presence {
    /// The user consented.
    Granted,
    /// The user refused.
    Denied,
    /// The user didn't respond in time.
    TimedOut,
}

/// A new key pair: the coordinates of the public key, and the credential ID.
#[derive(Clone, Copy, Debug, PartialEq, Eq)]
pub struct NewKey {
    pub id: [u8; 32],
    pub x: [u8; 32],
    pub y: [u8; 32],
}

/// A signature of 1 to 72 bytes. In contracts, it is the list of its bytes.
#[derive(Clone, Copy, Debug, PartialEq, Eq)]
pub struct Signature {
    bytes: [u8; 72],
    len: usize,
}

impl Model for Signature {
    ghost use Rattle.std.specs.Prelude.{List, ℕ, ◌≤◌, ◌≡◌, ◌-◌, length, take, drop, ◌++◌, replicate};
    ghost use Rattle.std.proofs.Common.{ap, ◌∙◌};
    ghost use Rattle.authn_core.specs.Padded.{padded, padded-take, length-kept};

    ghost Value = { List ℕ };

    ghost view = { λ s. take s.len s.bytes };

    ghost invariant = { λ s. (1 ≤ s.len) × (s.len ≤ 72) × (length s.bytes ≡ 72)
        × (drop s.len s.bytes ≡ replicate (72 - s.len) 0) };

    ghost inverse = { λ v. record { bytes = padded v; len = length v } };

    ghost inverse_ok = { λ a h. ap (λ (b : List ℕ). record { bytes = b; len = length (take a.len a.bytes) })
        (padded-take a.len a.bytes h.1 h.2 h.3) ∙ ap (λ (n : ℕ). record { bytes = a.bytes; len = n })
        (length-kept a.len a.bytes h.1 h.2) };
}

/// Copies the bytes to the beginning of the buffer.
fn copy_to_front(out: &mut [u8], bytes: &[u8])
    requires { length bytes.now ≤ length out.old }
    ensures { out.new ≡ bytes.now ++ drop (length bytes.now) out.old }
{
    out[..bytes.len()].copy_from_slice(bytes);
}

impl Signature {
    /// Returns the signature with these bytes, or `None` if their number is 0 or more than 72.
    pub fn new(bytes: &[u8]) -> Option<Signature>
        ensures exactly { IsSome result ↔ ((1 ≤ length bytes.now) × (length bytes.now ≤ 72)) }
        ensures value { IfSome result (λ s. s ≡ bytes.now) }
    {
        if bytes.is_empty() || bytes.len() > 72 {
            return None;
        }
        let mut kept = [0; 72];
        copy_to_front(&mut kept, bytes);
        Some(Signature {
            bytes: kept,
            len: bytes.len(),
        })
    }

    /// Returns the bytes of the signature.
    pub fn bytes(&self) -> &[u8]
        ensures value { result.now ≡ self.now }
        ensures len { length result.now ≤ 72 }
    {
        &self.bytes[..self.len]
    }
}
