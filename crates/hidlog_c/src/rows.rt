//! Conversion of C credentials to rows.
ghost use Rattle.std.specs.Prelude.{◌≡◌, ◌≤◌, ◌<◌, length, take, option_map, IfSome, IfNone};
ghost use Rattle.hidlog_c.specs.Changed.{Describes, DescribesNoRow};

use crate::structs::Credential;
use arrayvec::ArrayVec;
use cred_table::{Name, Row};
use std::str;

/// Returns the first `len` bytes of an array, or `None` if the array is shorter.
fn valid_prefix(bytes: &[u8; 64], len: u32) -> Option<&[u8]>
    ensures front { IfSome result (λ front. (front.now ≡ take len bytes.now) × (len ≤ 64)) }
    ensures none { IfNone result (64 < len) }
{
    bytes.get(..len as usize)
}

/// Converts a C credential to a row. Returns `None` if the credential is invalid.
pub fn to_row(credential: &Credential) -> Option<Row>
    ensures says { IfSome result (λ row. Describes credential.now row) }
    ensures none { IfNone result (DescribesNoRow credential.now) }
{
    let user = valid_prefix(&credential.user, credential.user_id_len)?;
    let name = valid_prefix(&credential.name, credential.user_name_len)?;
    let discoverable = match credential.discoverable {
        0 => false,
        1 => true,
        _ => return None,
    };
    Some(Row {
        rp: credential.rp,
        id: credential.id,
        x: credential.x,
        y: credential.y,
        user: ArrayVec::try_from(user).ok()?,
        discoverable,
        counter: credential.counter,
        name: Name::new(str::from_utf8(name).ok()?)?,
    })
}
