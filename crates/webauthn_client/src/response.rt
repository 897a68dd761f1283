//! The page's response: RegistrationResponseJSON or AuthenticationResponseJSON (WebAuthn Level 3, section 5.1).

ghost use Rattle.std.specs.Prelude.{◌≡◌, ◌++◌, OnOk};
ghost use Rattle.base64.specs.GeneralPurpose.{encode_of};
ghost use Rattle.base64.specs.Engines.{url_safe_no_pad};
ghost use Rattle.webauthn_client.specs.declared.rejection.DomError.TheVariants.{NotAllowed};

use crate::base64url::encode;
use crate::client_data::ClientData;
use crate::extensions::{extension, inner_member, is_true};
use crate::options::Abilities;
use crate::rejection::{Rejection, not_allowed, too_long};
use crate::text::is_word;
use arrayvec::ArrayVec;
use ctap_cbor::{Cursor, Item};

/// A JSON response.
pub type Response = ArrayVec<u8, 16384>;

/// A buffer for an attestation object.
type Attestation = ArrayVec<u8, 7680>;

/// The bytes before a P-256 public key in SubjectPublicKeyInfo (RFC 5480).
const SPKI: &[u8] =
    b"\x30\x59\x30\x13\x06\x07\x2a\x86\x48\xce\x3d\x02\x01\x06\x08\x2a\x86\x48\xce\x3d\x03\x01\x07\x03\x42\x00\x04";

/// A member of a response map: its encoding, and its content if it is a string.
#[derive(Clone, Copy)]
struct ResponseMember<'a> {
    whole: &'a [u8],
    content: &'a [u8],
}

/// Returns the error for an invalid authenticator response.
pub fn invalid_response() -> Rejection
    ensures { result.error ≡ NotAllowed }
{
    not_allowed("the authenticator's response is not CBOR in canonical form, or lacks members")
}

/// Returns a member of a response map by its number.
fn response_member<'a>(map: &'a [u8], number: i128) -> Option<ResponseMember<'a>> {
    let mut cursor = Cursor::new(map);
    let Ok(Item::Map(count)) = cursor.item(1) else {
        return None;
    };
    for _ in 0..map.len() {
        let Ok(Item::Int(key)) = cursor.item(2) else {
            return None;
        };
        let start = cursor.place();
        let mut content: &'a [u8] = b"";
        let mut copy = Cursor::new(map.get(start..).unwrap_or(b""));
        match copy.item(2) {
            Ok(Item::Bytes(bytes)) => content = bytes,
            Ok(Item::Text(text)) => content = text.as_bytes(),
            _ => {}
        }
        if cursor.skip(2).is_err() {
            return None;
        }
        if key == number {
            let whole = map.get(start..cursor.place())?;
            return Some(ResponseMember { whole, content });
        }
    }
    None
}

/// Appends bytes.
fn push<const N: usize>(out: &mut ArrayVec<u8, N>, bytes: &[u8]) -> Result<(), Rejection>
    ensures { OnOk result (out.new.items ≡ out.old.items ++ bytes.now) }
{
    if out.try_extend_from_slice(bytes).is_err() {
        return Err(too_long());
    }
    Ok(())
}

/// Appends bytes as base64url.
fn push_encoded(out: &mut Response, bytes: &[u8]) -> Result<(), Rejection>
    ensures { OnOk result (out.new.items ≡ out.old.items ++ encode_of url_safe_no_pad bytes.now) }
{
    if encode(bytes, out).is_err() {
        return Err(too_long());
    }
    Ok(())
}

/// Appends the beginning of a response, with the credential ID.
fn push_beginning(
    out: &mut Response,
    id: &[u8],
    client_data: &ClientData,
) -> Result<(), Rejection> {
    push(out, b"{\"id\":\"")?;
    push_encoded(out, id)?;
    push(out, b"\",\"rawId\":\"")?;
    push_encoded(out, id)?;
    push(out, b"\",\"response\":{\"clientDataJSON\":\"")?;
    push_encoded(out, client_data.as_slice())
}

/// Appends the end of a response, which follows the extension results.
fn push_end(out: &mut Response, abilities: Abilities) -> Result<(), Rejection> {
    if abilities.is_platform {
        push(
            out,
            b"},\"authenticatorAttachment\":\"platform\",\"type\":\"public-key\"}",
        )
    } else {
        push(
            out,
            b"},\"authenticatorAttachment\":\"cross-platform\",\"type\":\"public-key\"}",
        )
    }
}

/// Ends an unfinished JSON string. If the COSE key is an ES256 key on P-256, appends the public key and its algorithm.
fn push_public_key(out: &mut Response, cose: &[u8]) -> Result<(), Rejection> {
    push(out, b"\"")?;
    if cose.len() < 77 || &cose[..10] != b"\xa5\x01\x02\x03\x26\x20\x01\x21\x58\x20".as_slice() {
        return Ok(());
    }
    let (Some(x), Some(y)) = (cose.get(10..42), cose.get(45..77)) else {
        return Ok(());
    };
    let mut key: ArrayVec<u8, 91> = ArrayVec::new();
    push(&mut key, SPKI)?;
    push(&mut key, x)?;
    push(&mut key, y)?;
    push(out, b",\"publicKey\":\"")?;
    push_encoded(out, key.as_slice())?;
    push(out, b"\",\"publicKeyAlgorithm\":-7")
}

/// Appends an extension result if `is_there`. A comma precedes it, unless it is the first result.
fn push_result(
    out: &mut Response,
    has_any: &mut bool,
    is_there: bool,
    text: &[u8],
) -> Result<(), Rejection> {
    if !is_there {
        return Ok(());
    }
    if *has_any {
        push(out, b",")?;
    }
    *has_any = true;
    push(out, text)
}

/// Appends the extension results of a registration.
fn push_creation_results(
    out: &mut Response,
    extensions: Option<&[u8]>,
    is_discoverable: bool,
    has_resident_key: bool,
) -> Result<(), Rejection> {
    let has_props = is_true(extensions, "credProps");
    let has_support = match inner_member(extensions, "largeBlob", "support") {
        Some(support) => !is_word(support, ""),
        None => false,
    };
    let props: &[u8] = match (is_discoverable, has_resident_key) {
        (true, _) => b"\"credProps\":{\"rk\":true}",
        (false, false) => b"\"credProps\":{\"rk\":false}",
        (false, true) => b"\"credProps\":{}",
    };
    let mut has_any = false;
    push_result(out, &mut has_any, has_props, props)?;
    push_result(
        out,
        &mut has_any,
        extension(extensions, "credBlob").is_some(),
        b"\"credBlob\":false",
    )?;
    push_result(
        out,
        &mut has_any,
        is_true(extensions, "hmacCreateSecret"),
        b"\"hmacCreateSecret\":false",
    )?;
    push_result(
        out,
        &mut has_any,
        has_support,
        b"\"largeBlob\":{\"supported\":false}",
    )?;
    push_result(
        out,
        &mut has_any,
        extension(extensions, "prf").is_some(),
        b"\"prf\":{\"enabled\":false}",
    )
}

/// Appends the extension results of an authentication.
fn push_request_results(out: &mut Response, extensions: Option<&[u8]>) -> Result<(), Rejection> {
    let blob: &[u8] = if inner_member(extensions, "largeBlob", "write").is_some() {
        b"\"largeBlob\":{\"written\":false}"
    } else {
        b"\"largeBlob\":{}"
    };
    let mut has_any = false;
    push_result(
        out,
        &mut has_any,
        extension(extensions, "appid").is_some(),
        b"\"appid\":false",
    )?;
    push_result(
        out,
        &mut has_any,
        is_true(extensions, "getCredBlob"),
        b"\"getCredBlob\":\"\"",
    )?;
    push_result(
        out,
        &mut has_any,
        extension(extensions, "largeBlob").is_some(),
        blob,
    )?;
    push_result(
        out,
        &mut has_any,
        extension(extensions, "prf").is_some(),
        b"\"prf\":{}",
    )
}

/// Returns the credential ID and the public key in the authenticator data of a registration (WebAuthn Level 2, section
/// 6.5.1).
fn attested_credential(auth_data: &[u8]) -> Option<(&[u8], &[u8])> {
    let Some([high, low]) = auth_data.get(53..55) else {
        return None;
    };
    let end = 55 + usize::from(*high) * 256 + usize::from(*low);
    Some((auth_data.get(55..end)?, auth_data.get(end..)?))
}

/// Appends the attestation object, from the encodings of its members (WebAuthn Level 2, section 6.5.4).
fn push_attestation(
    out: &mut Attestation,
    format: &[u8],
    statement: &[u8],
    auth_data: &[u8],
) -> Result<(), Rejection> {
    push(out, b"\xa3\x63fmt")?;
    push(out, format)?;
    push(out, b"\x67attStmt")?;
    push(out, statement)?;
    push(out, b"\x68authData")?;
    push(out, auth_data)
}

/// Appends the response of a registration, from the authenticator's response map.
pub fn registration_json(
    map: &[u8],
    client_data: &ClientData,
    extensions: Option<&[u8]>,
    is_discoverable: bool,
    abilities: Abilities,
    out: &mut Response,
) -> Result<(), Rejection> {
    let (Some(format), Some(auth), Some(statement)) = (
        response_member(map, 1),
        response_member(map, 2),
        response_member(map, 3),
    ) else {
        return Err(invalid_response());
    };
    let auth_data = auth.content;
    let Some((id, cose)) = attested_credential(auth_data) else {
        return Err(invalid_response());
    };
    let mut attestation = Attestation::new();
    push_attestation(&mut attestation, format.whole, statement.whole, auth.whole)?;
    push_beginning(out, id, client_data)?;
    push(out, b"\",\"authenticatorData\":\"")?;
    push_encoded(out, auth_data)?;
    push(out, b"\",\"attestationObject\":\"")?;
    push_encoded(out, attestation.as_slice())?;
    push_public_key(out, cose)?;
    push(out, b",\"transports\":[\"")?;
    push(out, abilities.transport().as_bytes())?;
    push(out, b"\"]},\"clientExtensionResults\":{")?;
    push_creation_results(out, extensions, is_discoverable, abilities.has_resident_key)?;
    push_end(out, abilities)
}

/// Appends the response of an authentication, from the authenticator's response map.
pub fn authentication_json(
    map: &[u8],
    client_data: &ClientData,
    extensions: Option<&[u8]>,
    abilities: Abilities,
    out: &mut Response,
) -> Result<(), Rejection> {
    let (Some(credential), Some(auth), Some(signature)) = (
        response_member(map, 1),
        response_member(map, 2),
        response_member(map, 3),
    ) else {
        return Err(invalid_response());
    };
    // The map {"id": bytes, ..} in canonical CBOR, in which the first key is "id".
    let Some(id) = credential.whole.strip_prefix(b"\xa2\x62id") else {
        return Err(invalid_response());
    };
    let mut cursor = Cursor::new(id);
    let Ok(Item::Bytes(id)) = cursor.item(2) else {
        return Err(invalid_response());
    };
    push_beginning(out, id, client_data)?;
    push(out, b"\",\"authenticatorData\":\"")?;
    push_encoded(out, auth.content)?;
    push(out, b"\",\"signature\":\"")?;
    push_encoded(out, signature.content)?;
    if let Some(user) = response_member(map, 4) {
        push_user(out, user.whole)?;
    }
    push(out, b"\"},\"clientExtensionResults\":{")?;
    push_request_results(out, extensions)?;
    push_end(out, abilities)
}

/// Appends the user handle in a user map, whose first member is the ID. An empty user handle is omitted.
fn push_user(out: &mut Response, user: &[u8]) -> Result<(), Rejection> {
    let Some(id) = user.get(1..) else {
        return Ok(());
    };
    let Some(id) = id.strip_prefix(b"\x62id") else {
        return Ok(());
    };
    let mut cursor = Cursor::new(id);
    if let Ok(Item::Bytes(id)) = cursor.item(2)
        && !id.is_empty()
    {
        push(out, b"\",\"userHandle\":\"")?;
        push_encoded(out, id)?;
    }
    Ok(())
}
