//! Client extensions. The authenticator's core supports no extension, so each one is rejected, ignored, or answered as
//! unsupported, as in Chromium. `Abilities` has the extensions that the caller supports outside the core.

ghost use Rattle.std.specs.Prelude.{◌≡◌};
ghost use Rattle.webauthn_client.specs.declared.rejection.DomError.TheVariants.{NotSupported};

use crate::json::{Kind, inside, kind_of, member, next_value};
use crate::number::boolean;
use crate::options::{
    Abilities, decode_member, dictionary, is_public_key, optional_dictionary, public_key_count,
    required,
};
use crate::rejection::{DomError, Rejection, not_allowed, type_error};
use crate::relying_party::{Origin, check_site};
use crate::text::{is_word, to_string_value};

/// Returns the input of an extension, by the extension's name.
pub fn extension<'a>(extensions: Option<&'a [u8]>, name: &str) -> Option<&'a [u8]> {
    member(extensions?, name)
}

/// Returns a member of an extension's input.
pub fn inner_member<'a>(extensions: Option<&'a [u8]>, name: &str, inner: &str) -> Option<&'a [u8]> {
    member(member(extensions?, name)?, inner)
}

/// Returns whether the input of an extension is truthy in ECMAScript.
pub fn is_true(extensions: Option<&[u8]>, name: &str) -> bool {
    boolean(extension(extensions, name).unwrap_or(b"false"))
}

/// Returns the error for an extension that isn't allowed in this call, or whose input is invalid.
fn unsupported(member: &'static str, reason: &'static str) -> Rejection
    ensures error { result.error ≡ NotSupported }
    ensures member { result.member.now ≡ member.now }
{
    Rejection {
        error: DomError::NotSupported,
        member,
        reason,
    }
}

/// Checks that an input of `prf` is a dictionary with the member `first`.
fn check_prf_values(value: &[u8]) -> Result<(), Rejection> {
    dictionary(value, "AuthenticationExtensionsPRFValuesJSON")?;
    required(value, "first")?;
    Ok(())
}

/// Checks the types of the `evalByCredential` inputs.
fn check_by_credential(record: Option<&[u8]>) -> Result<(), Rejection> {
    let Some(record) = record else {
        return Ok(());
    };
    if kind_of(record) != Kind::Object {
        return Err(type_error(
            "evalByCredential",
            "Only objects can be converted to record<K,V> types",
        ));
    }
    let mut rest = inside(record);
    for _ in 0..record.len() {
        let Some((_, after_key)) = next_value(rest) else {
            break;
        };
        let Some((value, after)) = next_value(after_key) else {
            break;
        };
        check_prf_values(value)?;
        rest = after;
    }
    Ok(())
}

/// Checks the types of the extension inputs.
pub fn check_extension_types(extensions: Option<&[u8]>) -> Result<(), Rejection> {
    optional_dictionary(extensions, "extensions")?;
    optional_dictionary(extension(extensions, "largeBlob"), "largeBlob")?;
    optional_dictionary(extension(extensions, "prf"), "prf")?;
    if let Some(values) = inner_member(extensions, "prf", "eval") {
        check_prf_values(values)?;
    }
    check_by_credential(inner_member(extensions, "prf", "evalByCredential"))
}

/// Checks that the members of an input of `prf` are base64url.
fn check_prf_bytes(value: &[u8]) -> Result<(), Rejection> {
    decode_member(required(value, "first")?, "extensions.prf.first")?;
    if let Some(second) = member(value, "second") {
        decode_member(second, "extensions.prf.second")?;
    }
    Ok(())
}

/// Checks that the binary inputs of the extensions are base64url.
pub fn check_extension_bytes(extensions: Option<&[u8]>) -> Result<(), Rejection> {
    if let Some(blob) = extension(extensions, "credBlob") {
        decode_member(blob, "extensions.credBlob")?;
    }
    if let Some(written) = inner_member(extensions, "largeBlob", "write") {
        decode_member(written, "extensions.largeBlob.write")?;
    }
    if let Some(values) = inner_member(extensions, "prf", "eval") {
        check_prf_bytes(values)?;
    }
    let record = inner_member(extensions, "prf", "evalByCredential").unwrap_or(b"");
    let mut rest = inside(record);
    for _ in 0..record.len() {
        let Some((_, after_key)) = next_value(rest) else {
            break;
        };
        let Some((value, after)) = next_value(after_key) else {
            break;
        };
        check_prf_bytes(value)?;
        rest = after;
    }
    Ok(())
}

/// Checks the extension `credProtect` (credential protection policy).
fn check_protection(
    extensions: Option<&[u8]>,
    verification: Option<&[u8]>,
    abilities: Abilities,
) -> Result<(), Rejection> {
    let Some(policy) = extension(extensions, "credentialProtectionPolicy") else {
        return Ok(());
    };
    let is_optional = is_word(policy, "userVerificationOptional");
    let is_required = is_word(policy, "userVerificationRequired");
    if !is_optional
        && !is_required
        && !is_word(policy, "userVerificationOptionalWithCredentialIDList")
    {
        return Err(unsupported(
            "credentialProtectionPolicy",
            "must be one of the three credential protection policies",
        ));
    }
    if is_required && !is_word(verification.unwrap_or(b"null"), "required") {
        return Err(unsupported(
            "credentialProtectionPolicy",
            "it is inconsistent with userVerification",
        ));
    }
    if !is_true(extensions, "enforceCredentialProtectionPolicy") {
        return Ok(());
    }
    if is_optional {
        return Err(unsupported(
            "credentialProtectionPolicy",
            "userVerificationOptional cannot be enforced",
        ));
    }
    if abilities.has_cred_protect {
        Ok(())
    } else {
        Err(not_allowed(
            "enforceCredentialProtectionPolicy is true, but the key does not support credProtect",
        ))
    }
}

/// Checks that the URL in the extension `name`, `appid` or `appidExclude`, has the same site as the page.
fn check_app_id(
    extensions: Option<&[u8]>,
    name: &'static str,
    origin: &Origin,
) -> Result<(), Rejection> {
    let Some(value) = extension(extensions, name) else {
        return Ok(());
    };
    let text = to_string_value(value)?;
    if text.is_empty() {
        return Ok(());
    }
    check_site(text.as_slice(), name, origin)
}

/// Checks the extensions of a registration.
pub fn check_creation(
    extensions: Option<&[u8]>,
    verification: Option<&[u8]>,
    origin: &Origin,
    abilities: Abilities,
) -> Result<(), Rejection> {
    if extension(extensions, "appid").is_some() {
        return Err(unsupported("appid", "it is only valid when requesting an assertion"));
    }
    check_app_id(extensions, "appidExclude", origin)?;
    if inner_member(extensions, "largeBlob", "read").is_some() {
        return Err(unsupported(
            "largeBlob",
            "read is only valid when requesting an assertion",
        ));
    }
    if inner_member(extensions, "largeBlob", "write").is_some() {
        return Err(unsupported(
            "largeBlob",
            "write is only valid when requesting an assertion",
        ));
    }
    if inner_member(extensions, "prf", "evalByCredential").is_some() {
        return Err(unsupported(
            "prf",
            "evalByCredential cannot be set when creating a credential",
        ));
    }
    check_protection(extensions, verification, abilities)?;
    if requires_large_blob(extensions) && !abilities.has_large_blob {
        return Err(not_allowed("largeBlob is required, but the key does not support it"));
    }
    Ok(())
}

/// Returns whether a registration requires a large blob.
fn requires_large_blob(extensions: Option<&[u8]>) -> bool {
    is_word(
        inner_member(extensions, "largeBlob", "support").unwrap_or(b"null"),
        "required",
    )
}

/// Checks that a credential with a required large blob is discoverable.
pub fn check_large_blob(extensions: Option<&[u8]>, is_discoverable: bool) -> Result<(), Rejection> {
    if requires_large_blob(extensions) && !is_discoverable {
        return Err(not_allowed("largeBlob is required, but the credential is not discoverable"));
    }
    Ok(())
}

/// Returns whether a list of credential descriptors has this credential ID.
fn is_listed(id: &[u8], list: &[u8]) -> bool {
    let mut rest = inside(list);
    for _ in 0..list.len() {
        let Some((item, after)) = next_value(rest) else {
            break;
        };
        if is_public_key(item)
            && let Some(value) = member(item, "id")
            && let Ok(listed) = decode_member(value, "")
            && listed.as_slice() == id
        {
            return true;
        }
        rest = after;
    }
    false
}

/// Checks that each name in `evalByCredential` is the ID of a listed credential, as base64url.
fn check_credential_names(record: &[u8], list: &[u8]) -> Result<(), Rejection> {
    if public_key_count(list) == 0 {
        return Err(unsupported("prf", "evalByCredential needs a non-empty allowCredentials"));
    }
    let mut rest = inside(record);
    for _ in 0..record.len() {
        let Some((key, after_key)) = next_value(rest) else {
            break;
        };
        let Some((_, after)) = next_value(after_key) else {
            break;
        };
        let id = match decode_member(key, "") {
            Ok(id) if !id.is_empty() => id,
            _ => return Err(invalid_name("evalByCredential has a name that isn't base64url")),
        };
        if !is_listed(id.as_slice(), list) {
            return Err(invalid_name(
                "evalByCredential has the ID of a credential that isn't in allowCredentials",
            ));
        }
        rest = after;
    }
    Ok(())
}

/// Returns the error for an invalid name in `evalByCredential`.
fn invalid_name(reason: &'static str) -> Rejection {
    Rejection {
        error: DomError::Syntax,
        member: "prf",
        reason,
    }
}

/// Checks the extensions of an authentication with this `allowCredentials`.
pub fn check_request(
    extensions: Option<&[u8]>,
    allowed: &[u8],
    origin: &Origin,
) -> Result<(), Rejection> {
    if extension(extensions, "credProps").is_some() {
        return Err(unsupported("credProps", "it is only valid when creating a credential"));
    }
    if inner_member(extensions, "largeBlob", "support").is_some() {
        return Err(unsupported(
            "largeBlob",
            "support is only valid when creating a credential",
        ));
    }
    let has_write = inner_member(extensions, "largeBlob", "write").is_some();
    if has_write && boolean(inner_member(extensions, "largeBlob", "read").unwrap_or(b"false")) {
        return Err(unsupported(
            "largeBlob",
            "only one of read and write is allowed at a time",
        ));
    }
    if has_write && public_key_count(allowed) != 1 {
        return Err(unsupported(
            "largeBlob",
            "write needs exactly one credential in allowCredentials",
        ));
    }
    if let Some(record) = inner_member(extensions, "prf", "evalByCredential") {
        check_credential_names(record, allowed)?;
    }
    check_app_id(extensions, "appid", origin)
}
