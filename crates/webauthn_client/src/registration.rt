//! Registration: converts the page's options to an authenticatorMakeCredential request (CTAP 2.1, section 6.1).

ghost use Rattle.std.specs.Prelude.{◌≡◌, IfOk, IsTrue};
ghost use Rattle.webauthn_client.specs.declared.options.Verification.TheVariants.{Verified};

use crate::client_data::{Ceremony, ClientData, write_client_data};
use crate::extensions::{
    check_creation, check_extension_bytes, check_extension_types, check_large_blob,
};
use crate::json::{inside, member, next_value};
use crate::message::{Message, put, put_bytes, put_head, put_long, put_text};
use crate::number::{boolean, count, unsigned_long};
use crate::options::{
    Abilities, check_descriptors, check_ids, check_length, decode_member, dictionary,
    is_public_key, is_verified, optional_dictionary, public_key_count, put_descriptors, required,
    sequence,
};
use crate::rejection::{DomError, Rejection, not_allowed, type_error};
use crate::relying_party::{Origin, select_rp_id};
use crate::text::{is_word, to_string_value};
use sha2::{Digest, Sha256};

/// Checks that `pubKeyCredParams` is a list of dictionaries with an algorithm and a type.
fn check_parameters(list: &[u8]) -> Result<(), Rejection> {
    sequence(list, "pubKeyCredParams")?;
    let mut rest = inside(list);
    for _ in 0..list.len() {
        let Some((item, after)) = next_value(rest) else {
            break;
        };
        dictionary(item, "PublicKeyCredentialParameters")?;
        required(item, "alg")?;
        required(item, "type")?;
        rest = after;
    }
    Ok(())
}

/// Checks that `user` and `rp` have their required members.
fn check_entities(options: &[u8]) -> Result<(), Rejection> {
    let rp = required(options, "rp")?;
    dictionary(rp, "PublicKeyCredentialRpEntity")?;
    required(rp, "name")?;
    let user = required(options, "user")?;
    dictionary(user, "PublicKeyCredentialUserEntityJSON")?;
    required(user, "name")?;
    required(user, "displayName")?;
    required(user, "id")?;
    Ok(())
}

/// Checks that binary members are base64url.
fn check_binary_members(options: &[u8]) -> Result<(), Rejection> {
    decode_member(required(options, "challenge")?, "challenge")?;
    check_ids(
        member(options, "excludeCredentials"),
        "excludeCredentials.id",
    )?;
    decode_member(required(required(options, "user")?, "id")?, "user.id")?;
    check_extension_bytes(member(options, "extensions"))
}

/// Checks the types of the options, and that binary members are base64url.
pub fn check_types(options: &[u8]) -> Result<(), Rejection> {
    dictionary(options, "PublicKeyCredentialCreationOptionsJSON")?;
    optional_dictionary(
        member(options, "authenticatorSelection"),
        "authenticatorSelection",
    )?;
    required(options, "challenge")?;
    check_descriptors(member(options, "excludeCredentials"), "excludeCredentials")?;
    check_extension_types(member(options, "extensions"))?;
    if let Some(hints) = member(options, "hints") {
        sequence(hints, "hints")?;
    }
    check_parameters(required(options, "pubKeyCredParams")?)?;
    check_entities(options)?;
    check_binary_members(options)
}

/// Returns a member of `authenticatorSelection` in the options.
fn selection<'a>(options: &'a [u8], name: &str) -> Option<&'a [u8]> {
    member(member(options, "authenticatorSelection")?, name)
}

/// Returns whether the new credential is discoverable. Fails if the options require this and the authenticator doesn't
/// support it.
pub fn is_discoverable(options: &[u8], abilities: Abilities) -> Result<bool, Rejection> {
    let wanted = selection(options, "residentKey").unwrap_or(b"null");
    let is_known = is_word(wanted, "required")
        || is_word(wanted, "preferred")
        || is_word(wanted, "discouraged");
    let is_asked = boolean(selection(options, "requireResidentKey").unwrap_or(b"false"));
    let is_required = if is_known {
        is_word(wanted, "required")
    } else {
        is_asked
    };
    if is_required && !abilities.has_resident_key {
        return Err(not_allowed("a resident key is required, but the key does not support it"));
    }
    let is_preferred = is_known && is_word(wanted, "preferred");
    Ok((is_required || is_preferred) && abilities.has_resident_key)
}

/// Checks that the option `authenticatorAttachment`, if any, matches the authenticator.
fn check_abilities(options: &[u8], abilities: Abilities) -> Result<(), Rejection> {
    if let Some(wanted) = selection(options, "authenticatorAttachment") {
        if is_word(
            wanted,
            if abilities.is_platform {
                "cross-platform"
            } else {
                "platform"
            },
        ) {
            return Err(not_allowed("authenticatorAttachment doesn't match this key"));
        }
    }
    Ok(())
}

/// Appends the entries of `pubKeyCredParams`, or ES256 and RS256 if the list is empty.
fn put_parameters(message: &mut Message, list: &[u8]) -> Result<(), Rejection> {
    if count(list) == 0 {
        return put(
            message,
            b"\x82\xa2\x63alg\x26\x64type\x6apublic-key\xa2\x63alg\x39\x01\x00\x64type\x6apublic-key",
        );
    }
    put_head(message, 4, public_key_count(list))?;
    let mut rest = inside(list);
    for _ in 0..list.len() {
        let Some((item, after)) = next_value(rest) else {
            break;
        };
        if is_public_key(item) {
            put(message, b"\xa2\x63alg")?;
            put_long(message, unsigned_long(required(item, "alg")?))?;
            put(message, b"\x64type\x6apublic-key")?;
        }
        rest = after;
    }
    Ok(())
}

/// Appends a required member of a dictionary, converted to a string.
fn put_string(
    message: &mut Message,
    dictionary: &[u8],
    name: &'static str,
) -> Result<(), Rejection> {
    put_text(
        message,
        to_string_value(required(dictionary, name)?)?.as_slice(),
    )
}

/// Appends the relying party.
fn put_rp(message: &mut Message, rp: &[u8], rp_id: &[u8]) -> Result<(), Rejection> {
    put(message, b"\x02\xa2\x62id")?;
    put_text(message, rp_id)?;
    put(message, b"\x64name")?;
    put_string(message, rp, "name")
}

/// Appends the user.
fn put_user(message: &mut Message, user: &[u8]) -> Result<(), Rejection> {
    put(message, b"\x03\xa3\x62id")?;
    put_bytes(
        message,
        decode_member(required(user, "id")?, "user.id")?.as_slice(),
    )?;
    put(message, b"\x64name")?;
    put_string(message, user, "name")?;
    put(message, b"\x6bdisplayName")?;
    put_string(message, user, "displayName")
}

/// Checks the values of the options, as browsers do before they check the RP ID.
fn check_values(options: &[u8], origin: &Origin, abilities: Abilities) -> Result<(), Rejection> {
    if decode_member(required(required(options, "user")?, "id")?, "user.id")?.len() > 64 {
        return Err(type_error("user.id", "User handle exceeds 64 bytes"));
    }
    check_length(member(options, "excludeCredentials"), "excludeCredentials")?;
    let parameters = required(options, "pubKeyCredParams")?;
    if count(parameters) > 0 && public_key_count(parameters) == 0 {
        return Err(Rejection {
            error: DomError::NotSupported,
            member: "pubKeyCredParams",
            reason: "there are no parameters of the type public-key",
        });
    }
    check_creation(
        member(options, "extensions"),
        selection(options, "userVerification"),
        origin,
        abilities,
    )
}

/// Returns whether the authenticator verifies the user.
pub fn verifies_user(options: &[u8], abilities: Abilities) -> Result<bool, Rejection>
    ensures { IfOk result (λ v. IsTrue v → abilities.verification ≡ Verified) }
{
    is_verified(
        selection(options, "userVerification"),
        abilities.verification,
        true,
    )
}

/// Returns the client data of a registration.
pub fn create_client_data(options: &[u8], origin: &Origin) -> Result<ClientData, Rejection> {
    let challenge = decode_member(required(options, "challenge")?, "challenge")?;
    write_client_data(Ceremony::Create, challenge.as_slice(), origin)
}

/// Appends the parameters of a request, whose options were checked.
fn put_request(
    message: &mut Message,
    options: &[u8],
    origin: &Origin,
    rp_id: &[u8],
    is_discoverable: bool,
) -> Result<(), Rejection> {
    let excluded = member(options, "excludeCredentials").unwrap_or(b"");
    let has_excluded = public_key_count(excluded) > 0;
    let members = 4 + u64::from(has_excluded) + u64::from(is_discoverable);
    put(message, b"\x01")?;
    put_head(message, 5, members)?;
    put(message, b"\x01")?;
    put_bytes(
        message,
        &Sha256::digest(create_client_data(options, origin)?.as_slice()),
    )?;
    put_rp(message, required(options, "rp")?, rp_id)?;
    put_user(message, required(options, "user")?)?;
    put(message, b"\x04")?;
    put_parameters(message, required(options, "pubKeyCredParams")?)?;
    if has_excluded {
        put(message, b"\x05")?;
        put_descriptors(message, excluded)?;
    }
    if is_discoverable {
        put(message, b"\x07\xa1\x62rk\xf5")?;
    }
    Ok(())
}

/// Appends the request of a registration.
pub fn encode_request(
    options: &[u8],
    origin: &Origin,
    suffix: &[u8],
    abilities: Abilities,
    message: &mut Message,
) -> Result<(), Rejection> {
    check_values(options, origin, abilities)?;
    let given = match member(required(options, "rp")?, "id") {
        Some(id) => Some(to_string_value(id)?),
        None => None,
    };
    let rp_id = match &given {
        Some(id) => select_rp_id(Some(id.as_slice()), origin, suffix)?,
        None => select_rp_id(None, origin, suffix)?,
    };
    check_abilities(options, abilities)?;
    verifies_user(options, abilities)?;
    let is_discoverable = is_discoverable(options, abilities)?;
    check_large_blob(member(options, "extensions"), is_discoverable)?;
    put_request(message, options, origin, rp_id, is_discoverable)
}
