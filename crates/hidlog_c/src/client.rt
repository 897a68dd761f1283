//! The WebAuthn client as C functions. The result of each call depends only on its arguments: no state is kept between
//! calls.

use webauthn_client::{
    Abilities, Ceremony, Client, DomError, Message, Rejection, Response, Verification,
};

/// The values that a call returns in addition to its return value.
#[repr(C)]
#[derive(Clone, Copy)]
pub struct ClientReport {
    /// The timeout of the request in milliseconds: that of the options, or the client's default.
    pub timeout_ms: u32,
    /// Whether the user is verified, so that the UV flag of the response must be set: 0 or 1.
    pub is_verified: u32,
    /// After an error: the length of the member's name, which is at the start of `out`.
    pub member_len: u32,
    /// After an error: the length of the reason, which follows the member's name.
    pub reason_len: u32,
}

/// `out` is too small.
const ERR_BUFFER_TOO_SMALL: i64 = -100;

/// Returns the number of a DOM error (enum hidlog_client_error).
fn error_number(error: DomError) -> i64 {
    match error {
        DomError::Type => -1,
        DomError::Encoding => -2,
        DomError::Range => -3,
        DomError::NotSupported => -4,
        DomError::Security => -5,
        DomError::NotAllowed => -6,
        DomError::InvalidState => -7,
        DomError::Syntax => -8,
    }
}

/// Copies bytes to the beginning of a buffer. Returns their number, or [`ERR_BUFFER_TOO_SMALL`].
fn put(bytes: &[u8], out: &mut [u8]) -> i64 {
    let Ok(length) = i64::try_from(bytes.len()) else {
        return ERR_BUFFER_TOO_SMALL;
    };
    let Some((front, _)) = out.split_at_mut_checked(bytes.len()) else {
        return ERR_BUFFER_TOO_SMALL;
    };
    front.copy_from_slice(bytes);
    length
}

/// Returns the number of a rejection. If both fit into the buffer, writes the name of the invalid member and the reason
/// to its beginning.
fn write_rejection(rejection: Rejection, report: &mut ClientReport, out: &mut [u8]) -> i64 {
    let (member, reason) = (rejection.member.as_bytes(), rejection.reason.as_bytes());
    let (Ok(member_len), Ok(reason_len)) = (
        u32::try_from(member.len()),
        u32::try_from(reason.len()),
    ) else {
        return error_number(rejection.error);
    };
    if let Some((front, rest)) = out.split_at_mut_checked(member.len())
        && let Some((next, _)) = rest.split_at_mut_checked(reason.len())
    {
        front.copy_from_slice(member);
        next.copy_from_slice(reason);
        report.member_len = member_len;
        report.reason_len = reason_len;
    }
    error_number(rejection.error)
}

/// Converts bits (enum hidlog_client_ability) to the abilities of an authenticator.
fn to_abilities(bits: u32) -> Abilities {
    let verification = if bits & 1 != 0 {
        Verification::Verified
    } else if bits & 2 != 0 {
        Verification::Failed
    } else {
        Verification::None
    };
    Abilities {
        verification,
        is_platform: bits & 4 != 0,
        has_resident_key: bits & 8 != 0,
        has_cred_protect: bits & 16 != 0,
        has_large_blob: bits & 32 != 0,
    }
}

/// Returns the ceremony with this number: 0 creates a credential, and any other number gets an assertion.
fn to_ceremony(ceremony: u32) -> Ceremony {
    if ceremony == 0 {
        Ceremony::Create
    } else {
        Ceremony::Get
    }
}

/// Appends the CTAP2 request of a call to a message, and stores the timeout and the user verification in `report`.
fn write_request(
    client: &Client,
    report: &mut ClientReport,
    message: &mut Message,
) -> Result<(), Rejection> {
    client.request(message)?;
    report.is_verified = u32::from(client.is_verified()?);
    report.timeout_ms = client.timeout;
    Ok(())
}

/// Begins a call of navigator.credentials: checks the options, and writes the CTAP2 request. Returns the length of the
/// request, or the number of an error.
#[unsafe(no_mangle)]
pub extern "C" fn hidlog_client_request(
    ceremony: u32,
    options: &[u8],
    mediation: &[u8],
    origin: &[u8],
    suffix: &[u8],
    abilities: u32,
    report: &mut ClientReport,
    out: &mut [u8],
) -> i64 {
    *report = ClientReport {
        timeout_ms: 0,
        is_verified: 0,
        member_len: 0,
        reason_len: 0,
    };
    let begun = Client::begin(
        to_ceremony(ceremony),
        options,
        mediation,
        origin,
        suffix,
        to_abilities(abilities),
    );
    let mut message = Message::new();
    match begun.and_then(|client| write_request(&client, report, &mut message)) {
        Ok(()) => put(message.as_slice(), out),
        Err(rejection) => write_rejection(rejection, report, out),
    }
}

/// Ends a call of navigator.credentials with the authenticator's response: writes the credential as JSON. Returns the
/// length of the JSON, or the number of an error.
#[unsafe(no_mangle)]
pub extern "C" fn hidlog_client_response(
    ceremony: u32,
    options: &[u8],
    mediation: &[u8],
    origin: &[u8],
    suffix: &[u8],
    abilities: u32,
    response: &[u8],
    report: &mut ClientReport,
    out: &mut [u8],
) -> i64 {
    *report = ClientReport {
        timeout_ms: 0,
        is_verified: 0,
        member_len: 0,
        reason_len: 0,
    };
    let begun = Client::begin(
        to_ceremony(ceremony),
        options,
        mediation,
        origin,
        suffix,
        to_abilities(abilities),
    );
    let mut json = Response::new();
    match begun.and_then(|client| client.answer(response, &mut json)) {
        Ok(()) => put(json.as_slice(), out),
        Err(rejection) => write_rejection(rejection, report, out),
    }
}
