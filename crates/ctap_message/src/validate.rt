//! The checks of the parameters of a request, in order.

ghost use Rattle.std.specs.Prelude.{◌≡◌, true, Err};
ghost use Rattle.ctap_message.specs.Fields.{validated_make};
ghost use Rattle.ctap_message.specs.Fields.{validated_assertion};
ghost use Rattle.ctap_message.specs.DescriptorWalk.{list_of, left_of};
ghost use Rattle.ctap_message.specs.Collected.{to_make_parameters, to_assertion_parameters};
ghost use Rattle.ctap_message.specs.RequestFaults.{make_fault, assertion_fault, fault_of_make};
ghost use Rattle.ctap_message.specs.Views.{parsed_result, fault_of_result, IsFresh, HasLengths};

use crate::fault::RequestFault;
use crate::get_assertion::Assert;
use crate::make_credential::Make;
use crate::request::{AssertRequest, MakeRequest, Request};

/// The command byte of authenticatorMakeCredential.
const MAKE_CREDENTIAL: u8 = 0x01;

/// The command byte of authenticatorGetAssertion.
const GET_ASSERTION: u8 = 0x02;

/// Returns the error for an incomplete entry of a list.
fn entry_not_whole(command: u8, parameter: u8) -> RequestFault
    ensures { result ≡ RequestFault.EntryNotWhole command parameter }
{
    RequestFault::EntryNotWhole { command, parameter }
}

/// Returns the error for a missing required parameter.
fn missing<'a>(command: u8, parameter: u8) -> Result<Request<'a>, RequestFault>
    ensures { result ≡ Err (RequestFault.Missing command parameter) }
{
    Err(RequestFault::Missing { command, parameter })
}

/// Returns the first check that an authenticatorMakeCredential request fails, after the checks that clientDataHash,
/// rp.id and user.id are present.
fn fault_of_make(make: &Make, hash: &[u8], user_id: &[u8]) -> Option<RequestFault>
    ensures { result ≡ fault_of_make (to_make_parameters make.now).0 hash.now user_id.now }
{
    if !make.has_parameters {
        return Some(RequestFault::Missing {
            command: MAKE_CREDENTIAL,
            parameter: 0x04,
        });
    }
    if !make.parameters.is_whole {
        return Some(entry_not_whole(MAKE_CREDENTIAL, 0x04));
    }
    if !make.exclude.is_whole {
        return Some(entry_not_whole(MAKE_CREDENTIAL, 0x05));
    }
    if hash.len() != 32 {
        return Some(RequestFault::HashLength { len: hash.len() });
    }
    if user_id.len() > 64 {
        let len = user_id.len();
        return Some(RequestFault::UserIdLength { len });
    }
    if make.pin_uv_auth_param.is_some() {
        return Some(RequestFault::PinUvAuthParam);
    }
    if !make.parameters.has_es256 {
        return Some(RequestFault::NoAlgorithm);
    }
    if make.options.uv.unwrap_or(false) {
        return Some(RequestFault::UvOption);
    }
    if !make.options.up.unwrap_or(true) {
        return Some(RequestFault::UpOption);
    }
    if make.enterprise_attestation.is_some() {
        return Some(RequestFault::EnterpriseAttestation);
    }
    None
}

/// Returns the authenticatorMakeCredential request, or the first check that it fails.
pub(crate) fn validate_make_credential<'a>(
    typed: bool,
    make: Make<'a>,
) -> Result<Request<'a>, RequestFault>
    requires { list_of make.exclude.list ≡ left_of make.exclude.list }
    ensures request { parsed_result result ≡ validated_make true typed (to_make_parameters make.entry).0 }
    ensures fault { fault_of_result result ≡ make_fault typed (to_make_parameters make.entry).0 }
    ensures fresh { IsFresh result }
    ensures lens { HasLengths result }
{
    if !typed {
        return Err(RequestFault::WrongType);
    }
    let Some(hash) = make.hash else {
        return missing(MAKE_CREDENTIAL, 0x01);
    };
    let Some(rp_id) = make.rp.id else {
        return missing(MAKE_CREDENTIAL, 0x02);
    };
    let Some(user_id) = make.user.id else {
        return missing(MAKE_CREDENTIAL, 0x03);
    };
    if let Some(fault) = fault_of_make(&make, hash, user_id) {
        return Err(fault);
    }
    Ok(Request::Make(MakeRequest {
        hash,
        rp_id,
        user_id,
        user_name: make.user.name.unwrap_or(""),
        discoverable: make.options.rk.unwrap_or(false),
        exclude: make.exclude.list,
    }))
}

/// Returns the authenticatorGetAssertion request, or the first check that it fails.
pub(crate) fn validate_get_assertion<'a>(
    typed: bool,
    assert: Assert<'a>,
) -> Result<Request<'a>, RequestFault>
    requires { list_of assert.allow.list ≡ left_of assert.allow.list }
    ensures request { parsed_result result ≡ validated_assertion true typed (to_assertion_parameters assert.entry).0 }
    ensures fault { fault_of_result result ≡ assertion_fault typed (to_assertion_parameters assert.entry).0 }
    ensures fresh { IsFresh result }
    ensures lens { HasLengths result }
{
    if !typed {
        return Err(RequestFault::WrongType);
    }
    let Some(rp_id) = assert.rp_id else {
        return missing(GET_ASSERTION, 0x01);
    };
    let Some(hash) = assert.hash else {
        return missing(GET_ASSERTION, 0x02);
    };
    if !assert.allow.is_whole {
        return Err(entry_not_whole(GET_ASSERTION, 0x03));
    }
    if hash.len() != 32 {
        return Err(RequestFault::HashLength { len: hash.len() });
    }
    if assert.pin_uv_auth_param.is_some() {
        return Err(RequestFault::PinUvAuthParam);
    }
    if assert.options.uv.unwrap_or(false) {
        return Err(RequestFault::UvOption);
    }
    if assert.options.rk.is_some() {
        return Err(RequestFault::RkOption);
    }
    Ok(Request::Assert(AssertRequest {
        hash,
        rp_id,
        allow: assert.allow.list,
        presence: assert.options.up.unwrap_or(true),
    }))
}
