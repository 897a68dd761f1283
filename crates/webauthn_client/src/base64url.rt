//! Base64url without padding (RFC 4648, section 5).

ghost use Rattle.std.specs.Prelude.{◌≡◌, ◌<◌, ◌++◌, OnOk};
ghost use Rattle.std.specs.Option.{ForSome};
ghost use Rattle.base64.specs.GeneralPurpose.{encode_of};
ghost use Rattle.base64.specs.Engines.{url_safe_no_pad};
ghost use Rattle.webauthn_client.specs.declared.rejection.DomError.TheVariants.{Encoding};

use crate::rejection::{DomError, Rejection};
use crate::text::{Text, push};
use arrayvec::ArrayVec;
use base64::engine::general_purpose::URL_SAFE_NO_PAD;

/// Number of characters that are written at a time.
const ENCODED_CHUNK_LEN: usize = 12288;

/// Returns the six bits of a base64url character.
fn decode_char(letter: u8) -> Option<u8>
    ensures { ForSome result (λ v. v < 64) }
{
    match letter {
        b'A'..=b'Z' => Some(letter - b'A'),
        b'a'..=b'z' => Some(letter - b'a' + 26),
        b'0'..=b'9' => Some(letter - b'0' + 52),
        b'-' => Some(62),
        b'_' => Some(63),
        _ => None,
    }
}

/// Returns the error for invalid base64url.
fn refused(member: &'static str) -> Rejection
    ensures error { result.error ≡ Encoding }
    ensures member { result.member.now ≡ member.now }
{
    Rejection {
        error: DomError::Encoding,
        member,
        reason: "it isn't base64url without padding",
    }
}

/// Decodes base64url. As in browsers, surplus bits at the end are ignored.
pub fn decode(text: &[u8], member: &'static str) -> Result<Text, Rejection> {
    if text.len() % 4 == 1 {
        return Err(refused(member));
    }
    let mut bytes = Text::new();
    let mut kept = 0u8;
    for i in 0..text.len() {
        let Some(six) = decode_char(text[i]) else {
            return Err(refused(member));
        };
        match i % 4 {
            0 => {}
            1 => push(&mut bytes, &[kept % 64 * 4 + six / 16])?,
            2 => push(&mut bytes, &[kept % 16 * 16 + six / 4])?,
            _ => push(&mut bytes, &[kept % 4 * 64 + six])?,
        }
        kept = six;
    }
    Ok(bytes)
}

/// Appends the base64url encoding of bytes. If the capacity is too small, fails and appends nothing.
pub fn encode<const N: usize>(bytes: &[u8], out: &mut ArrayVec<u8, N>) -> Result<(), ()>
    ensures { OnOk result (out.new.items ≡ out.old.items ++ encode_of url_safe_no_pad bytes.now) }
{
    let mut letters = [0u8; ENCODED_CHUNK_LEN];
    let Ok(len) = URL_SAFE_NO_PAD.encode_slice(bytes, &mut letters) else {
        return Err(());
    };
    let Some(front) = letters.get(..len) else {
        return Err(());
    };
    if out.try_extend_from_slice(front).is_err() {
        return Err(());
    }
    Ok(())
}
