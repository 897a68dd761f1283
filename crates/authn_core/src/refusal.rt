//! Errors of commands.
ghost use Rattle.std.specs.Prelude.{◌≡◌};
ghost use Rattle.authn_core.specs.State.{status_of, presence_refusal};

use crate::replies::Presence;
use ctap_message::Status;

/// An error of a command, with the values that were compared.
#[derive(Clone, Copy, Debug, PartialEq, Eq)]
pub enum Refusal {
    /// The request fails a check. `status` is that of the first check that fails.
    BadRequest { status: u8 },
    /// The host cancelled the command.
    Cancelled,
    /// The user refused.
    Denied,
    /// The user didn't respond in time to a command that creates or uses a credential.
    NoConsentInTime,
    /// The user didn't respond in time to a command that needs only user presence.
    TimedOut,
    /// A credential of the excludeList exists.
    Excluded,
    /// There is no capacity for another credential.
    Full,
    /// The caller refused a key pair.
    KeyRefused,
    /// A credential with the new ID exists already.
    KeyIdTaken,
    /// The caller refused a signature.
    SignatureRefused,
    /// No credential of the RP may sign. `listed` is whether an allowList was given.
    NoCredential { listed: bool },
    /// The signature counter of the credential has reached its maximum.
    CounterSpent,
    /// No assertion is pending.
    NothingPending,
    /// The pending assertions belong to another channel.
    PendingElsewhere { channel: u32 },
    /// At time `at`, the time limit for the next assertion, which begins at `since`, has passed.
    NextTooLate { since: u64, at: u64 },
    /// At time `at`, the time limit for a reset, which begins at `since`, has passed.
    ResetTooLate { since: u64, at: u64 },
}

impl Refusal {
    /// Returns the status of the response (CTAP 2.1, section 8.2, "Status codes").
    pub fn status(self) -> Status
        ensures { result.0 ≡ status_of self }
    {
        match self {
            Refusal::BadRequest { status } => Status(status),
            Refusal::Cancelled => Status(0x2d),
            Refusal::Denied | Refusal::NoConsentInTime => Status(0x27),
            Refusal::TimedOut => Status(0x2f),
            Refusal::Excluded => Status(0x19),
            Refusal::Full => Status(0x28),
            Refusal::KeyRefused | Refusal::KeyIdTaken | Refusal::SignatureRefused => Status(0x7f),
            Refusal::NoCredential { .. } => Status(0x2e),
            Refusal::CounterSpent => Status(0x15),
            Refusal::NothingPending
            | Refusal::PendingElsewhere { .. }
            | Refusal::NextTooLate { .. }
            | Refusal::ResetTooLate { .. } => Status(0x30),
        }
    }
}

/// Returns the error for a reply that doesn't grant user presence.
pub(crate) fn presence_refusal(reply: Presence) -> Refusal
    ensures { result ≡ presence_refusal reply }
{
    match reply {
        Presence::Denied => Refusal::Denied,
        _ => Refusal::NoConsentInTime,
    }
}
