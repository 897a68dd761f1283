//! authenticatorReset and authenticatorSelection (CTAP 2.1, sections 6.6 and 6.9), which need only user presence.

ghost use Rattle.std.specs.Prelude.{[], ◌∷◌, None};
ghost use Rattle.authn_core.specs.State.{AwaitSelectionPresence, respond, await_reply};
ghost use Rattle.authn_core.specs.Turn.{reset_turn, presence_turn};
ghost use Rattle.authn_core.specs.Views.{TakesTurn, TakesWork};

use crate::authenticator::{Core, Turn};
use crate::refusal::Refusal;
use crate::replies::Presence;
use crate::task::Task;
use crate::work::KeepaliveStatus;
use cred_table::Table;
use ctap_message::{Answer, Status, write_status};

/// The time limit for a reset after power-up, in milliseconds.
const RESET_LIMIT: u64 = 10_000;

impl<T: Table<C>, const C: usize> Core<T, C> {
    /// Waits for user presence for a reset, unless the time limit has passed.
    pub(crate) fn begin_reset(&mut self, cid: u32, answer: &mut Answer) -> Turn
        ensures { TakesTurn self.old self.new result answer.new.items
            (reset_turn self.old.core.state.rows self.old.core.setup.began
            self.old.latest cid) }
    {
        if self.latest - self.began > RESET_LIMIT {
            return self.refuse_and_clear(
                Refusal::ResetTooLate {
                    since: self.began,
                    at: self.latest,
                },
                answer,
            );
        }
        self.pending.clear();
        Turn::Waits(self.wait(cid, Task::AwaitResetPresence))
    }

    /// Removes all credentials if the user consents, and responds in any case.
    pub(crate) fn reset(&mut self, reply: Presence, answer: &mut Answer) -> Turn
        ensures { TakesTurn self.old self.new result answer.new.items
            (presence_turn (respond [] None (0x00 ∷ [])) self.old.core.state.rows
            self.old.core.state.pending reply) }
    {
        if let Presence::Granted = reply {
            self.work = None;
            self.table.clear();
            self.pending.clear();
        }
        self.select(reply, answer)
    }

    /// Waits for user presence for a selection.
    pub(crate) fn begin_selection(&mut self, cid: u32) -> KeepaliveStatus
        ensures { TakesWork self.old self.new result (await_reply self.old.core.state.rows None cid AwaitSelectionPresence) }
    {
        self.pending.clear();
        self.wait(cid, Task::AwaitSelectionPresence)
    }

    /// Responds to a selection according to the user's reply.
    pub(crate) fn select(&mut self, reply: Presence, answer: &mut Answer) -> Turn
        ensures { TakesTurn self.old self.new result answer.new.items (presence_turn (respond self.old.core.state.rows
            self.old.core.state.pending (0x00 ∷ [])) self.old.core.state.rows self.old.core.state.pending reply) }
    {
        match reply {
            Presence::Granted => {
                self.work = None;
                write_status(Status::OK, answer);
                Turn::Answer
            }
            Presence::Denied => self.refuse(Refusal::Denied, answer),
            Presence::TimedOut => self.refuse(Refusal::TimedOut, answer),
        }
    }
}
