//! Authentication: converts the page's options to an authenticatorGetAssertion request (CTAP 2.1, section 6.2).

ghost use Rattle.std.specs.Prelude.{◌≡◌, IfOk, IsTrue};
ghost use Rattle.webauthn_client.specs.declared.options.Verification.TheVariants.{Verified};

use crate::client_data::{Ceremony, ClientData, write_client_data};
use crate::extensions::{check_extension_bytes, check_extension_types, check_request};
use crate::json::{inside, member, next_value};
use crate::message::{Message, put, put_bytes, put_head, put_text};
use crate::options::{
    Abilities, check_descriptors, check_ids, check_length, decode_member, dictionary,
    is_public_key, is_verified, public_key_count, put_descriptors, required, sequence,
};
use crate::rejection::{Rejection, not_allowed};
use crate::relying_party::{Origin, select_rp_id};
use crate::text::{is_word, to_string_value};
use sha2::{Digest, Sha256};

/// Checks the types of the options, and that binary members are base64url.
pub fn check_types(options: &[u8]) -> Result<(), Rejection> {
    dictionary(options, "PublicKeyCredentialRequestOptionsJSON")?;
    let allowed = member(options, "allowCredentials");
    check_descriptors(allowed, "allowCredentials")?;
    let challenge = required(options, "challenge")?;
    let extensions = member(options, "extensions");
    check_extension_types(extensions)?;
    if let Some(hints) = member(options, "hints") {
        sequence(hints, "hints")?;
    }
    decode_member(challenge, "challenge")?;
    check_ids(allowed, "allowCredentials.id")?;
    check_extension_bytes(extensions)
}

/// Returns whether a value is the name of a transport.
fn is_transport(value: &[u8]) -> bool {
    let text = match to_string_value(value) {
        Ok(text) => text,
        Err(_) => return false,
    };
    let name = text.as_slice();
    name == b"usb".as_slice()
        || name == b"nfc".as_slice()
        || name == b"ble".as_slice()
        || name == b"smart-card".as_slice()
        || name == b"hybrid".as_slice()
        || name == b"internal".as_slice()
}

/// Returns whether a credential is usable over a transport: its descriptor contains this transport, or no known
/// transport.
fn is_usable_over(item: &[u8], transport: &str) -> bool {
    let list = member(item, "transports").unwrap_or(b"");
    let mut rest = inside(list);
    let mut has_named = false;
    for _ in 0..list.len() {
        let Some((name, after)) = next_value(rest) else {
            break;
        };
        if is_word(name, transport) {
            return true;
        }
        if is_transport(name) {
            has_named = true;
        }
        rest = after;
    }
    !has_named
}

/// Returns whether the list has no entry of the type `public-key`, or has one that is usable over this transport.
fn is_any_usable_over(list: &[u8], transport: &str) -> bool {
    if public_key_count(list) == 0 {
        return true;
    }
    let mut rest = inside(list);
    for _ in 0..list.len() {
        let Some((item, after)) = next_value(rest) else {
            break;
        };
        if is_public_key(item) && is_usable_over(item, transport) {
            return true;
        }
        rest = after;
    }
    false
}

/// Returns whether the authenticator verifies the user.
pub fn verifies_user(options: &[u8], abilities: Abilities) -> Result<bool, Rejection>
    ensures { IfOk result (λ v. IsTrue v → abilities.verification ≡ Verified) }
{
    is_verified(
        member(options, "userVerification"),
        abilities.verification,
        false,
    )
}

/// Returns the client data of an authentication.
pub fn create_client_data(options: &[u8], origin: &Origin) -> Result<ClientData, Rejection> {
    let challenge = decode_member(required(options, "challenge")?, "challenge")?;
    write_client_data(Ceremony::Get, challenge.as_slice(), origin)
}

/// Appends the parameters of a request, whose options were checked.
fn put_request(
    message: &mut Message,
    options: &[u8],
    origin: &Origin,
    rp_id: &[u8],
) -> Result<(), Rejection> {
    let allowed = member(options, "allowCredentials").unwrap_or(b"");
    let has_list = public_key_count(allowed) > 0;
    put(message, b"\x02")?;
    put_head(message, 5, 2 + u64::from(has_list))?;
    put(message, b"\x01")?;
    put_text(message, rp_id)?;
    put(message, b"\x02")?;
    put_bytes(
        message,
        &Sha256::digest(create_client_data(options, origin)?.as_slice()),
    )?;
    if has_list {
        put(message, b"\x03")?;
        put_descriptors(message, allowed)?;
    }
    Ok(())
}

/// Appends the request of an authentication.
pub fn encode_request(
    options: &[u8],
    origin: &Origin,
    suffix: &[u8],
    abilities: Abilities,
    message: &mut Message,
) -> Result<(), Rejection> {
    let allowed = member(options, "allowCredentials").unwrap_or(b"");
    check_length(Some(allowed), "allowCredentials")?;
    check_request(member(options, "extensions"), allowed, origin)?;
    let given = match member(options, "rpId") {
        Some(id) => Some(to_string_value(id)?),
        None => None,
    };
    let rp_id = match &given {
        Some(id) => select_rp_id(Some(id.as_slice()), origin, suffix)?,
        None => select_rp_id(None, origin, suffix)?,
    };
    verifies_user(options, abilities)?;
    if !is_any_usable_over(allowed, abilities.transport()) {
        return Err(not_allowed("allowCredentials has no credential with the key's transport"));
    }
    put_request(message, options, origin, rp_id)
}
