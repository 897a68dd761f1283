//! Parsed requests.

ghost use Rattle.std.specs.Prelude.{◌≡◌, ◌≤◌, length, min, option_map};
ghost use Rattle.ctap_cbor.specs.Outcome.{canonical_tree, outcome_of};
ghost use Rattle.ctap_message.specs.Requests.{make_request};
ghost use Rattle.ctap_message.specs.Requests.{assertion_request};
ghost use Rattle.ctap_message.specs.Requests.{read_of, steps_of, without_parameters as alone_of, reading_steps, MAX_STEPS, MAX_REQUEST_LEN};
ghost use Rattle.ctap_message.specs.RequestFaults.{assertion_fault_in, make_fault_in, fault_in, fault_of, rejection_status, status_of, trailing_fault};
ghost use Rattle.ctap_message.specs.Views.{request_result, to_request, parsed_result, fault_of_result, HasFreshList, HasCheckedLengths, IsFresh, HasLengths};

use crate::command::Command;
use crate::descriptors::Descriptors;
use crate::fault::RequestFault;
use crate::get_assertion::parse_get_assertion;
use crate::laws::steps_are_bounded;
use crate::make_credential::parse_make_credential;
use crate::status::Status;
use crate::validate::{validate_get_assertion, validate_make_credential};
use ctap_cbor::laws::cursor_agrees_with_check;
use ctap_cbor::{Cursor, read_whole};

/// The parameters of authenticatorMakeCredential.
#[derive(Drop)]
pub struct MakeRequest<'a> {
    /// The parameter clientDataHash, which has 32 bytes.
    pub hash: &'a [u8],
    pub rp_id: &'a str,
    /// At most 64 bytes.
    pub user_id: &'a [u8],
    /// Empty if absent.
    pub user_name: &'a str,
    pub discoverable: bool,
    /// excludeList.
    pub exclude: Descriptors<'a>,
}

/// The parameters of authenticatorGetAssertion.
#[derive(Drop)]
pub struct AssertRequest<'a> {
    /// The parameter clientDataHash, which has 32 bytes.
    pub hash: &'a [u8],
    pub rp_id: &'a str,
    /// allowList.
    pub allow: Descriptors<'a>,
    /// The option `up`: whether user presence is requested.
    pub presence: bool,
}

/// A request that passed all checks of its command, borrowed from the message.
#[derive(Drop)]
pub enum Request<'a> {
    /// authenticatorMakeCredential (CTAP 2.1, section 6.1).
    Make(MakeRequest<'a>),
    /// authenticatorGetAssertion (CTAP 2.1, section 6.2).
    Assert(AssertRequest<'a>),
    /// authenticatorGetInfo (CTAP 2.1, section 6.4).
    Info,
    /// authenticatorGetNextAssertion (CTAP 2.1, section 6.3).
    Next,
    /// authenticatorReset (CTAP 2.1, section 6.6).
    Reset,
    /// authenticatorSelection (CTAP 2.1, section 6.9).
    Select,
}

/// Parses a message, its command byte first. Returns the request, or the status of the first check that it fails, and
/// the number of steps.
///
/// | Message | Result | Steps |
/// |---|---|---|
/// | empty | 0x03 | 0 |
/// | a command that isn't supported | 0x01 | 0 |
/// | 0x04, 0x07, 0x08 or 0x0b alone | `Info`, `Reset`, `Next` or `Select` | 0 |
/// | one of these, followed by further bytes | 0x03 | 0 |
/// | 0x01 or 0x02, canonical parameters | `Make`, `Assert`, or a failed check's status | twice those of `check` |
/// | 0x01 or 0x02, other parameters | 0x12 | those of `check` |
pub fn read_request<'a>(message: &'a [u8]) -> (Result<Request<'a>, Status>, u64)
    ensures request { request_result result.0 ≡ read_of message.now }
    ensures steps { result.1 ≡ min (steps_of message.now) MAX_STEPS }
    // The number of steps is exact for messages that the transport delivers.
    ensures exact { length message.now ≤ MAX_REQUEST_LEN → result.1 ≡ steps_of message.now }
    // The iterator over the list of descriptors, if any, is at its start.
    ensures fresh { IsFresh result.0 }
    ensures lens { HasLengths result.0 }
{
    let (result, steps) = parse_request(message);
    match result {
        Ok(request) => (Ok(request), steps),
        Err(fault) => (Err(fault.status()), steps),
    }
}

/// Returns the first check that a message fails, with the values that were compared, or `None` for a supported request.
pub fn request_fault(message: &[u8]) -> Option<RequestFault>
    ensures fault { result ≡ fault_in message.now }
    // The status of the error is the one that [`read_request`] returns.
    ensures status { option_map status_of result ≡ rejection_status (read_of message.now) }
{
    match parse_request(message).0 {
        Ok(_) => None,
        Err(fault) => Some(fault),
    }
}

/// Parses a message as [`read_request`] does. Returns the request, or the first check that it fails, with the values
/// that were compared. Also returns the number of steps.
#[tactic(auto, unfolding(crate::specs::Requests::read_of, crate::specs::Requests::steps_of, crate::specs::RequestFaults::fault_in))]
#[inline(always)]
pub fn parse_request<'a>(message: &'a [u8]) -> (Result<Request<'a>, RequestFault>, u64)
    ensures request { parsed_result result.0 ≡ read_of message.now }
    ensures fault { fault_of_result result.0 ≡ fault_in message.now }
    ensures steps { result.1 ≡ min (steps_of message.now) MAX_STEPS }
    ensures exact { length message.now ≤ MAX_REQUEST_LEN → result.1 ≡ steps_of message.now }
    ensures fresh { IsFresh result.0 }
    ensures lens { HasLengths result.0 }
{
    steps_are_bounded();
    let Some((byte, parameters)) = message.split_first() else {
        return (Err(RequestFault::Empty), 0);
    };
    match Command::named(*byte) {
        Some(Command::MakeCredential) => read_make_credential(parameters),
        Some(Command::GetAssertion) => read_get_assertion(parameters),
        Some(Command::GetInfo) => (check_no_parameters(parameters, Request::Info), 0),
        Some(Command::Reset) => (check_no_parameters(parameters, Request::Reset), 0),
        Some(Command::GetNextAssertion) => (check_no_parameters(parameters, Request::Next), 0),
        Some(Command::Selection) => (check_no_parameters(parameters, Request::Select), 0),
        None => (Err(RequestFault::NoSuchCommand { byte: *byte }), 0),
    }
}

/// Checks that a command without parameters isn't followed by any byte.
fn check_no_parameters<'a>(
    parameters: &[u8],
    request: Request<'a>,
) -> Result<Request<'a>, RequestFault>
    requires fresh { HasFreshList request }
    requires lens { HasCheckedLengths request }
    ensures request { parsed_result result ≡ alone_of parameters.now (to_request request.entry) }
    ensures fault { fault_of_result result ≡ trailing_fault (length parameters.now) }
    ensures fresh { IsFresh result }
    ensures lens { HasLengths result }
{
    if parameters.is_empty() {
        Ok(request)
    } else {
        Err(RequestFault::Trailing {
            count: parameters.len(),
        })
    }
}

/// Parses the parameters of authenticatorMakeCredential: checks that they are in canonical CBOR, and then reads them
/// with the same cursor.
fn read_make_credential<'a>(parameters: &'a [u8]) -> (Result<Request<'a>, RequestFault>, u64)
    ensures request { parsed_result result.0 ≡ make_request (canonical_tree parameters.now) }
    ensures fault { fault_of_result result.0 ≡ fault_of (outcome_of parameters.now) make_fault_in }
    ensures steps { result.1 ≡ min (reading_steps parameters.now) MAX_STEPS }
    ensures fresh { IsFresh result.0 }
    ensures lens { HasLengths result.0 }
{
    cursor_agrees_with_check(parameters);
    let mut cursor = Cursor::new(parameters);
    if let Err(fault) = read_whole(&mut cursor) {
        return (Err(RequestFault::NotCanonical(fault)), cursor.steps());
    }
    cursor.rewind();
    match parse_make_credential(&mut cursor) {
        Ok((typed, make)) => (validate_make_credential(typed, make), cursor.steps()),
        Err(_) => unreachable!(),
    }
}

/// Parses the parameters of authenticatorGetAssertion: checks that they are in canonical CBOR, and then reads them with
/// the same cursor.
fn read_get_assertion<'a>(parameters: &'a [u8]) -> (Result<Request<'a>, RequestFault>, u64)
    ensures request { parsed_result result.0 ≡ assertion_request (canonical_tree parameters.now) }
    ensures fault { fault_of_result result.0 ≡ fault_of (outcome_of parameters.now) assertion_fault_in }
    ensures steps { result.1 ≡ min (reading_steps parameters.now) MAX_STEPS }
    ensures fresh { IsFresh result.0 }
    ensures lens { HasLengths result.0 }
{
    cursor_agrees_with_check(parameters);
    let mut cursor = Cursor::new(parameters);
    if let Err(fault) = read_whole(&mut cursor) {
        return (Err(RequestFault::NotCanonical(fault)), cursor.steps());
    }
    cursor.rewind();
    match parse_get_assertion(&mut cursor) {
        Ok((typed, assert)) => (validate_get_assertion(typed, assert), cursor.steps()),
        Err(_) => unreachable!(),
    }
}
