//! The calls of this crate with results by value: the parameters of a request are members of its variant, and a
//! response is returned, which copies a buffer of 262 bytes.

ghost use Rattle.std.specs.Prelude.{◌≡◌, ◌≤◌, length, min};
ghost use Rattle.std.specs.Option.{ForSome, option_copied};
ghost use Rattle.ctap_message.specs.Responses as spec;
ghost use Rattle.ctap_message.specs.Views.{valued_result, IsAtStart, HasChecked};
ghost use Rattle.ctap_message.specs.Requests.{read_of, steps_of, MAX_STEPS, MAX_REQUEST_LEN};

use crate::answer::{self, Answer};
use crate::descriptors::Descriptors;
use crate::request;
use crate::status::Status;

/// A request that passed all checks of its command, borrowed from the message.
#[derive(Drop)]
pub enum Request<'a> {
    /// authenticatorMakeCredential (CTAP 2.1, section 6.1).
    Make {
        /// The parameter clientDataHash, which has 32 bytes.
        hash: &'a [u8],
        rp_id: &'a str,
        /// At most 64 bytes.
        user_id: &'a [u8],
        /// Empty if absent.
        user_name: &'a str,
        discoverable: bool,
        /// excludeList.
        exclude: Descriptors<'a>,
    },
    /// authenticatorGetAssertion (CTAP 2.1, section 6.2).
    Assert {
        /// The parameter clientDataHash, which has 32 bytes.
        hash: &'a [u8],
        rp_id: &'a str,
        /// allowList.
        allow: Descriptors<'a>,
        /// The option `up`: whether user presence is requested.
        presence: bool,
    },
    /// authenticatorGetInfo (CTAP 2.1, section 6.4).
    Info,
    /// authenticatorGetNextAssertion (CTAP 2.1, section 6.3).
    Next,
    /// authenticatorReset (CTAP 2.1, section 6.6).
    Reset,
    /// authenticatorSelection (CTAP 2.1, section 6.9).
    Select,
}

/// Parses a message as [`crate::read_request`] does.
pub fn read_request<'a>(message: &'a [u8]) -> (Result<Request<'a>, Status>, u64)
    ensures request { valued_result result.0 ≡ read_of message.now }
    ensures steps { result.1 ≡ min (steps_of message.now) MAX_STEPS }
    // The number of steps is exact for messages that the transport delivers.
    ensures exact { length message.now ≤ MAX_REQUEST_LEN → result.1 ≡ steps_of message.now }
    // The iterator over the list of descriptors, if any, is at its start.
    ensures fresh { IsAtStart result.0 }
    ensures lens { HasChecked result.0 }
{
    let (parsed, steps) = request::read_request(message);
    let request = match parsed {
        Ok(request) => request,
        Err(status) => return (Err(status), steps),
    };
    let request = match request {
        request::Request::Make(make) => Request::Make {
            hash: make.hash,
            rp_id: make.rp_id,
            user_id: make.user_id,
            user_name: make.user_name,
            discoverable: make.discoverable,
            exclude: make.exclude,
        },
        request::Request::Assert(assert) => Request::Assert {
            hash: assert.hash,
            rp_id: assert.rp_id,
            allow: assert.allow,
            presence: assert.presence,
        },
        request::Request::Info => Request::Info,
        request::Request::Next => Request::Next,
        request::Request::Reset => Request::Reset,
        request::Request::Select => Request::Select,
    };
    (Ok(request), steps)
}

/// Returns a response that consists of the status byte alone.
pub fn write_status(status: Status) -> Answer
    ensures { result.items ≡ spec.refusal status.0 }
{
    let mut answer = Answer::new();
    answer::write_status(status, &mut answer);
    answer
}

/// Returns the response of authenticatorGetInfo, as [`crate::write_info`] writes it.
pub fn write_info(aaguid: &[u8; 16]) -> Answer
    ensures { result.items ≡ spec.info_answer aaguid.now }
{
    let mut answer = Answer::new();
    answer::write_info(aaguid, &mut answer);
    answer
}

/// Returns the response of authenticatorMakeCredential, as [`crate::write_created`] writes it.
pub fn write_created(auth: &[u8], sig: &[u8]) -> Answer
    requires auth { length auth.now ≡ 164 }
    requires sig { length sig.now ≤ 72 }
    ensures { result.items ≡ spec.created_answer auth.now sig.now }
{
    let mut answer = Answer::new();
    answer::write_created(auth, sig, &mut answer);
    answer
}

/// Returns the response of an assertion, as [`crate::write_assertion`] writes it.
pub fn write_assertion(
    id: &[u8; 32],
    auth: &[u8],
    sig: &[u8],
    user: Option<&[u8]>,
    number: Option<u16>,
) -> Answer
    requires auth { length auth.now ≡ 37 }
    requires sig { length sig.now ≤ 72 }
    requires user { ForSome user (λ u. length u.now ≤ 64) }
    ensures { result.items ≡ spec.assertion_answer id.now auth.now sig.now (option_copied user.entry) number }
{
    let mut answer = Answer::new();
    answer::write_assertion(id, auth, sig, user, number, &mut answer);
    answer
}
