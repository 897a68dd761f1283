//! Parses the JSON options of `navigator.credentials.create` and `get` as Chromium does: the required members and their
//! types, in WebIDL's order.

ghost use Rattle.std.specs.Prelude.{◌≡◌, IfOk, IsTrue};
ghost use Rattle.webauthn_client.specs.declared.options.Verification.TheVariants.{Verified};

use crate::base64url::decode;
use crate::json::{Kind, inside, kind_of, member, next_value};
use crate::message::{Message, put, put_bytes, put_head};
use crate::number::count;
use crate::rejection::{DomError, Rejection, not_allowed, type_error};
use crate::text::{Text, is_word, to_string_value};

/// The authenticator's user verification: not supported, successful, or failing.
#[derive(Clone, Copy, Debug, PartialEq, Eq)]
pub enum Verification {
    None,
    Verified,
    Failed,
}

/// The authenticator's capabilities.
#[derive(Clone, Copy)]
pub struct Abilities {
    pub verification: Verification,
    pub is_platform: bool,
    pub has_resident_key: bool,
    /// Whether it supports the extension `credProtect` (CTAP 2.1, section 12.1).
    pub has_cred_protect: bool,
    /// Whether its discoverable credentials have large blobs.
    pub has_large_blob: bool,
}

impl Abilities {
    /// Returns the name of the authenticator's transport.
    pub fn transport(self) -> &'static str {
        if self.is_platform { "internal" } else { "usb" }
    }
}

/// Maximum number of credentials in a list.
const MAX_LIST_LEN: usize = 64;

/// Checks that a value is a dictionary. An array counts as a dictionary without members.
pub fn dictionary(value: &[u8], name: &'static str) -> Result<(), Rejection> {
    match kind_of(value) {
        Kind::Object | Kind::Array => Ok(()),
        _ => Err(type_error(name, "The provided value is not of type 'dictionary'.")),
    }
}

/// Checks that a value, if any, is a dictionary or null.
pub fn optional_dictionary(value: Option<&[u8]>, name: &'static str) -> Result<(), Rejection> {
    match value {
        Some(value) if kind_of(value) != Kind::Null => dictionary(value, name),
        _ => Ok(()),
    }
}

/// Checks that a value is a list.
pub fn sequence(value: &[u8], name: &'static str) -> Result<(), Rejection> {
    match kind_of(value) {
        Kind::Array => Ok(()),
        Kind::Object => Err(type_error(
            name,
            "The object must have a callable @@iterator property.",
        )),
        _ => Err(type_error(
            name,
            "The provided value cannot be converted to a sequence.",
        )),
    }
}

/// Returns a required member of an object. Fails if the member is missing.
pub fn required<'a>(object: &'a [u8], name: &'static str) -> Result<&'a [u8], Rejection> {
    match member(object, name) {
        Some(value) => Ok(value),
        None => Err(type_error(name, "Required member is undefined.")),
    }
}

/// Checks that a credential descriptor has an ID and a type, and that its transports are a list.
fn check_descriptor(item: &[u8]) -> Result<(), Rejection> {
    dictionary(item, "PublicKeyCredentialDescriptorJSON")?;
    required(item, "id")?;
    if let Some(transports) = member(item, "transports") {
        sequence(transports, "transports")?;
    }
    required(item, "type")?;
    Ok(())
}

/// Checks that a value, if any, is a list of credential descriptors.
pub fn check_descriptors(list: Option<&[u8]>, name: &'static str) -> Result<(), Rejection> {
    let Some(list) = list else {
        return Ok(());
    };
    sequence(list, name)?;
    let mut rest = inside(list);
    for _ in 0..list.len() {
        let Some((item, after)) = next_value(rest) else {
            break;
        };
        check_descriptor(item)?;
        rest = after;
    }
    Ok(())
}

/// Decodes the base64url value of the member `name`.
pub fn decode_member(value: &[u8], name: &'static str) -> Result<Text, Rejection> {
    let text = to_string_value(value)?;
    decode(text.as_slice(), name)
}

/// Checks that the IDs in a list of credential descriptors are base64url.
pub fn check_ids(list: Option<&[u8]>, name: &'static str) -> Result<(), Rejection> {
    let list = list.unwrap_or(b"");
    let mut rest = inside(list);
    for _ in 0..list.len() {
        let Some((item, after)) = next_value(rest) else {
            break;
        };
        decode_member(required(item, "id")?, name)?;
        rest = after;
    }
    Ok(())
}

/// Checks the length of a list of credential descriptors.
pub fn check_length(list: Option<&[u8]>, name: &'static str) -> Result<(), Rejection> {
    if count(list.unwrap_or(b"")) > MAX_LIST_LEN {
        return Err(Rejection {
            error: DomError::Range,
            member: name,
            reason: "browsers take at most 64 credentials",
        });
    }
    Ok(())
}

/// Returns whether a list entry has the type `public-key`.
pub fn is_public_key(item: &[u8]) -> bool {
    match member(item, "type") {
        Some(kind) => is_word(kind, "public-key"),
        None => false,
    }
}

/// Returns the number of list entries of the type `public-key`.
pub fn public_key_count(list: &[u8]) -> u64 {
    let mut known = 0u64;
    let mut rest = inside(list);
    for _ in 0..list.len() {
        let Some((item, after)) = next_value(rest) else {
            break;
        };
        if is_public_key(item) {
            known = known.saturating_add(1);
        }
        rest = after;
    }
    known
}

/// Appends a list of credential descriptors in the encoding of CTAP2.
pub fn put_descriptors(message: &mut Message, list: &[u8]) -> Result<(), Rejection> {
    put_head(message, 4, public_key_count(list))?;
    let mut rest = inside(list);
    for _ in 0..list.len() {
        let Some((item, after)) = next_value(rest) else {
            break;
        };
        if is_public_key(item) {
            let id = decode_member(required(item, "id")?, "id")?;
            put(message, b"\xa2\x62id")?;
            put_bytes(message, id.as_slice())?;
            put(message, b"\x64type\x6apublic-key")?;
        }
        rest = after;
    }
    Ok(())
}

/// Returns whether the authenticator verifies the user. As in Chromium, a registration requests user verification if
/// the authenticator supports it. Fails if user verification is required but not supported, or if it fails.
pub fn is_verified(
    wanted: Option<&[u8]>,
    verification: Verification,
    is_registration: bool,
) -> Result<bool, Rejection>
    ensures { IfOk result (λ v. IsTrue v → verification ≡ Verified) }
{
    let wanted = wanted.unwrap_or(b"\"preferred\"");
    match verification {
        Verification::None => {
            if is_word(wanted, "required") {
                return Err(not_allowed(
                    "userVerification is required, and the key has no user verification",
                ));
            }
            Ok(false)
        }
        _ if !is_registration && is_word(wanted, "discouraged") => Ok(false),
        Verification::Failed => Err(not_allowed("user verification failed")),
        Verification::Verified => Ok(true),
    }
}

/// Returns the options of a public key credential: either `given` itself, or its member `publicKey`.
pub fn public_key_options(given: &[u8]) -> Result<&[u8], Rejection> {
    if kind_of(given) != Kind::Object {
        return Err(type_error("publicKey", "the options must be an object"));
    }
    if count(given) == 0 {
        return Err(Rejection {
            error: DomError::NotSupported,
            member: "publicKey",
            reason: "the options are empty",
        });
    }
    Ok(member(given, "publicKey").unwrap_or(given))
}

/// Checks that the mediation has one of the four valid values. Returns whether the mediation is conditional.
pub fn is_conditional(mediation: &[u8]) -> Result<bool, Rejection> {
    if mediation == b"conditional".as_slice() {
        return Ok(true);
    }
    if mediation == b"optional".as_slice()
        || mediation == b"silent".as_slice()
        || mediation == b"required".as_slice()
    {
        return Ok(false);
    }
    Err(type_error("mediation", "The provided value is not a valid enum value."))
}
