//! The C structs in which calls on a key store their results.
ghost use Rattle.std.specs.Prelude.{◌≡◌, ◌≤◌, ◌++◌, ◌-◌, drop, length, replicate};
ghost use Rattle.authn_core.specs.Views.{IsValidNeed};
ghost use Rattle.authn_core.specs.Views.{to_needed};
ghost use Rattle.hidlog_c.specs.Reports.{to_c_credential, to_c_stats, to_c_need};

use authn_core::Need;
use cred_table::Row;
use token_session::Meters;

/// What a key needs from its caller.
#[derive(Clone, Copy)]
#[repr(C)]
pub struct CNeed {
    /// The kind of the need: 0 nothing, 1 user presence, 2 a key pair, 3 a signature.
    pub kind: u32,
    /// The number of bytes to sign for a signature, or else 0.
    pub to_sign_len: u32,
    /// The credential ID for a signature, or else zeros.
    pub id: [u8; 32],
    /// The bytes to sign, followed by zeros.
    pub signed: [u8; 196],
}

/// A credential, without its private key.
#[derive(Clone, Copy)]
#[repr(C)]
pub struct Credential {
    /// SHA-256 of the RP ID.
    pub rp: [u8; 32],
    /// The credential ID.
    pub id: [u8; 32],
    /// The x coordinate of the public key on P-256.
    pub x: [u8; 32],
    /// The y coordinate.
    pub y: [u8; 32],
    /// The user handle, followed by zeros.
    pub user: [u8; 64],
    /// The user's name in UTF-8, followed by zeros.
    pub name: [u8; 64],
    /// Length of the user handle in bytes.
    pub user_id_len: u32,
    /// Length of the name in bytes.
    pub user_name_len: u32,
    /// 1 if the credential is discoverable, or else 0.
    pub discoverable: u32,
    /// The signature counter.
    pub counter: u32,
}

/// A session's statistics.
#[derive(Clone, Copy)]
#[repr(C)]
pub struct CStats {
    pub requests: u64,
    pub bytes: u64,
    pub steps: u64,
    pub held: u32,
    pub rows: u32,
    pub pending: u32,
    /// 0.
    pub unused: u32,
}

/// Copies the bytes to the beginning of the buffer.
fn copy_to_front(out: &mut [u8], bytes: &[u8])
    requires { length bytes.now ≤ length out.old }
    ensures { out.new ≡ bytes.now ++ drop (length bytes.now) out.old }
{
    out[..bytes.len()].copy_from_slice(bytes);
}

/// Returns the bytes, padded with zeros to `N` bytes.
fn with_zeros<const N: usize>(bytes: &[u8]) -> [u8; N]
    requires { length bytes.now ≤ N }
    ensures { result ≡ bytes.now ++ replicate (N - length bytes.now) 0 }
{
    let mut kept = [0; N];
    copy_to_front(&mut kept, bytes);
    kept
}

/// Returns the C struct for a need of this kind, without bytes to sign.
fn plain_need(kind: u32) -> CNeed
    ensures { result ≡ record { kind = kind; to_sign_len = 0; id = replicate 32 0; signed = replicate 196 0 } }
{
    CNeed {
        kind,
        to_sign_len: 0,
        id: [0; 32],
        signed: [0; 196],
    }
}

/// Converts a need to a C struct.
pub fn to_c_need(need: Need<'_>) -> CNeed
    requires { IsValidNeed (to_needed need) }
    ensures { result ≡ to_c_need (to_needed need.entry) }
{
    match need {
        Need::None => plain_need(0),
        Need::Presence => plain_need(1),
        Need::Key => plain_need(2),
        Need::Sign { id, signed } => CNeed {
            kind: 3,
            to_sign_len: signed.len() as u32,
            id: *id,
            signed: with_zeros(signed),
        },
    }
}

/// Converts a row to a C struct.
pub fn to_c_credential(row: &Row) -> Credential
    ensures { result ≡ to_c_credential row.now }
{
    let user = row.user.as_slice();
    let name = row.name.as_str().as_bytes();
    Credential {
        rp: row.rp,
        id: row.id,
        x: row.x,
        y: row.y,
        user: with_zeros(user),
        name: with_zeros(name),
        user_id_len: user.len() as u32,
        user_name_len: name.len() as u32,
        discoverable: u32::from(row.discoverable),
        counter: row.counter,
    }
}

/// Converts meters to a C struct.
pub fn to_c_stats(meters: Meters) -> CStats
    ensures { result ≡ to_c_stats meters }
{
    CStats {
        requests: meters.requests,
        bytes: meters.bytes,
        steps: meters.steps,
        held: u32::from(meters.held),
        rows: u32::from(meters.rows),
        pending: u32::from(meters.pending),
        unused: 0,
    }
}
