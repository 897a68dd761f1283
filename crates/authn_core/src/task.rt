//! What a pending request waits for.

ghost use Rattle.std.specs.Prelude.{◌≡◌};
ghost use Rattle.authn_core.specs.State.{status};
ghost use Rattle.authn_core.specs.Views.{status_number, to_task};

use crate::work::KeepaliveStatus;
use arrayvec::ArrayVec;
use cred_table::Name;

/// A credential that is to be created.
#[derive(Drop)]
pub(crate) struct MakeState {
    pub(crate) hash: [u8; 32],
    pub(crate) rp: [u8; 32],
    pub(crate) user: ArrayVec<u8, 64>,
    pub(crate) name: Name,
    pub(crate) discoverable: bool,
}

/// An assertion that is to be signed.
#[derive(Clone, Copy)]
pub(crate) struct AssertState {
    pub(crate) hash: [u8; 32],
    pub(crate) rp: [u8; 32],
    pub(crate) id: [u8; 32],
    pub(crate) presence: bool,
    pub(crate) number: Option<u16>,
}

/// What a pending request waits for. If it waits for a signature, the last field is the bytes to sign.
#[derive(Drop)]
pub(crate) enum Task {
    AwaitResetPresence,
    AwaitSelectionPresence,
    AwaitMakePresence(MakeState, bool),
    AwaitKeyPair(MakeState),
    AwaitMakeSignature(MakeState, crate::replies::NewKey, ArrayVec<u8, 196>),
    AwaitAssertPresence(AssertState),
    AwaitAssertSignature(AssertState, u32, ArrayVec<u8, 196>),
}

impl Task {
    /// Returns the KEEPALIVE status of a request with this task.
    pub(crate) fn status(&self) -> KeepaliveStatus
        ensures { status_number result ≡ status (to_task self.now) }
    {
        match self {
            Task::AwaitKeyPair(_) | Task::AwaitMakeSignature(..) | Task::AwaitAssertSignature(..) =>
                KeepaliveStatus::Processing,
            Task::AwaitResetPresence
            | Task::AwaitSelectionPresence
            | Task::AwaitMakePresence(..)
            | Task::AwaitAssertPresence(_) => KeepaliveStatus::PresenceNeeded,
        }
    }
}

/// A pending request: its channel and what it waits for.
#[derive(Drop)]
pub(crate) struct PendingTask {
    pub(crate) cid: u32,
    pub(crate) task: Task,
}
