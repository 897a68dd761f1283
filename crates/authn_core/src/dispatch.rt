//! Passes each event to the command that handles it.

ghost use Rattle.std.specs.Prelude.{None};
ghost use Rattle.ctap_message.specs.Views.{parsed_result, IsFresh, HasLengths};
ghost use Rattle.authn_core.specs.State.{respond_refusal, await_reply};
ghost use Rattle.authn_core.specs.Turn.{TaskReady, SignsItsResponse};
ghost use Rattle.authn_core.specs.Turn.{request_turn, reply_turn};
ghost use Rattle.authn_core.specs.Views.{TakesTurn, TakesWork, to_event, to_task};

use crate::authenticator::{Core, Turn};
use crate::event::Event;
use crate::refusal::Refusal;
use crate::task::{PendingTask, Task};
use crate::work::KeepaliveStatus;
use cred_table::Table;
use ctap_message::{Answer, Request, RequestFault, write_status};

impl<T: Table<C>, const C: usize> Core<T, C> {
    /// Begins the command of a request.
    pub(crate) fn serve(
        &mut self,
        cid: u32,
        read: Result<Request<'_>, RequestFault>,
        answer: &mut Answer,
    ) -> Turn
        requires fresh { IsFresh read }
        requires lens { HasLengths read }
        ensures { TakesTurn self.old self.new result answer.new.items
            (request_turn self.old.core.setup self.old.core.state.rows
            self.old.core.state.pending self.old.latest cid (parsed_result read.entry)) }
    {
        match read {
            Err(fault) => {
                let status = fault.status().0;
                self.refuse_and_clear(Refusal::BadRequest { status }, answer)
            }
            Ok(Request::Make(make)) => Turn::Waits(self.begin_make(cid, make)),
            Ok(Request::Assert(assert)) => self.begin_assert(cid, assert, answer),
            Ok(Request::Info) => self.get_info(answer),
            Ok(Request::Next) => self.next(cid, answer),
            Ok(Request::Reset) => self.begin_reset(cid, answer),
            Ok(Request::Select) => Turn::Waits(self.begin_selection(cid)),
        }
    }

    /// Ends the request with the status of an error.
    pub(crate) fn refuse(&mut self, why: Refusal, answer: &mut Answer) -> Turn
        ensures { TakesTurn self.old self.new result answer.new.items
            (respond_refusal self.old.core.state.rows self.old.core.state.pending why) }
    {
        self.work = None;
        write_status(why.status(), answer);
        Turn::Refuses(why)
    }

    /// Ends the request with the status of an error, and removes the pending assertions.
    pub(crate) fn refuse_and_clear(&mut self, why: Refusal, answer: &mut Answer) -> Turn
        ensures { TakesTurn self.old self.new result answer.new.items (respond_refusal self.old.core.state.rows None why) }
    {
        self.pending.clear();
        self.refuse(why, answer)
    }

    /// Makes a request pending, or keeps it pending, with this task. Returns the KEEPALIVE status.
    pub(crate) fn wait(&mut self, cid: u32, task: Task) -> KeepaliveStatus
        requires ready { TaskReady self.old.core.setup.capacity self.old.core.state.rows (to_task task) }
        requires signs { SignsItsResponse self.old.core.setup.aaguid (to_task task) }
        ensures { TakesWork self.old self.new result (await_reply self.old.core.state.rows self.old.core.state.pending cid
            (to_task task)) }
    {
        let status = task.status();
        self.work = Some(PendingTask { cid, task });
        status
    }

    /// Continues the pending request with a reply of the caller, if the request needs this reply.
    pub(crate) fn reply(&mut self, reply: &Event<'_>, answer: &mut Answer) -> Turn
        ensures { TakesTurn self.old self.new result answer.new.items
            (reply_turn self.old.core.setup self.old.core.state self.old.latest
            self.old.core.state.work (to_event reply.now)) }
    {
        let Some(PendingTask { cid, task }) = self.work.take() else {
            return Turn::Ignored;
        };
        match (task, reply) {
            (Task::AwaitResetPresence, Event::Presence(reply)) => self.reset(*reply, answer),
            (Task::AwaitSelectionPresence, Event::Presence(reply)) => self.select(*reply, answer),
            (Task::AwaitMakePresence(making, excluded), Event::Presence(reply)) =>
                self.on_make_presence(cid, making, excluded, *reply, answer),
            (Task::AwaitAssertPresence(a), Event::Presence(reply)) => self.on_assert_presence(
                cid, a, *reply, answer,
            ),
            (Task::AwaitKeyPair(making), Event::Key(key)) => self.on_make_key_pair(
                cid, making, key, answer,
            ),
            (Task::AwaitMakeSignature(making, key, signed), Event::Signature(signature)) =>
                self.on_make_signature(making, key, &signed, signature, answer),
            (Task::AwaitAssertSignature(a, counter, signed), Event::Signature(signature)) =>
                self.on_assert_signature(a, counter, &signed, signature, answer),
            (task, _) => {
                self.work = Some(PendingTask { cid, task });
                Turn::Ignored
            }
        }
    }
}
