//! The replies of the caller that an authenticator waits for.

ghost use Rattle.std.specs.Prelude.{◌≡◌};
ghost use Rattle.authn_core.specs.Views.{to_needed};
ghost use Rattle.session_walk.specs.Walks.{kind_of_input, reply_to_need};

use authn_core::Need;
use token_session::Input;

/// A reply of the caller that an authenticator waits for.
#[derive(Clone, Copy)]
pub enum AwaitedReply {
    Presence,
    Key,
    Signature,
}

impl AwaitedReply {
    /// Returns the reply that satisfies a need.
    pub fn of(need: &Need<'_>) -> Option<Self>
        ensures { result ≡ reply_to_need (to_needed need.now) }
    {
        match need {
            Need::None => None,
            Need::Presence => Some(AwaitedReply::Presence),
            Need::Key => Some(AwaitedReply::Key),
            Need::Sign { .. } => Some(AwaitedReply::Signature),
        }
    }

    /// Returns the kind of a reply, or `None` for other inputs.
    pub fn from_input(input: &Input) -> Option<Self>
        ensures { result ≡ kind_of_input input.now }
    {
        match input {
            Input::Packet(_) | Input::Tick => None,
            Input::Presence(_) => Some(AwaitedReply::Presence),
            Input::Key(_) => Some(AwaitedReply::Key),
            Input::Signature(_) => Some(AwaitedReply::Signature),
        }
    }

    /// Returns the name of the reply, for texts.
    pub fn name(self) -> &'static str {
        match self {
            AwaitedReply::Presence => "the user's presence",
            AwaitedReply::Key => "a new key",
            AwaitedReply::Signature => "a signature",
        }
    }
}
