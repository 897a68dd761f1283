//! Why an input was refused.
ghost use Rattle.std.specs.Prelude.{◌≡◌};
ghost use Rattle.authn_core.specs.Views.{to_event, refusal_of};
ghost use Rattle.token_session.specs.History.{command_cause};

use authn_core::{Event, Refusal, Turn};
use ctap_message::{RequestFault, request_fault};

/// Why an ERROR packet or an error status is sent in response to an input.
#[derive(Clone, Copy, Debug, PartialEq, Eq)]
pub enum Cause {
    /// The transport rejects a packet or drops a message, and sends an ERROR packet.
    Transport(hid_assemble::Refusal),
    /// A request fails a check of its command. The response is an error status.
    Request(RequestFault),
    /// The authenticator refuses a command. The response is an error status.
    Command(Refusal),
}

/// The causes for one input: why a message was dropped before the input because it timed out, and why the input is
/// refused.
#[derive(Clone, Copy, Debug, PartialEq, Eq)]
pub struct Causes {
    pub time: Option<hid_assemble::Refusal>,
    pub input: Option<Cause>,
}

/// Returns the cause for the refusal of an event, if any.
pub(crate) fn cause_of(turn: Turn, event: &Event<'_>) -> Option<Cause>
    ensures { result ≡ command_cause (to_event event.now) (refusal_of turn) }
{
    let Turn::Refuses(why) = turn else {
        return None;
    };
    match (why, event) {
        (Refusal::BadRequest { .. }, Event::Request { message, .. }) => {
            match request_fault(message) {
                Some(fault) => Some(Cause::Request(fault)),
                None => None,
            }
        }
        _ => Some(Cause::Command(why)),
    }
}
