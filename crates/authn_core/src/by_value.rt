//! The authenticator with responses by value: each call returns the response, which copies a buffer of 262 bytes.

ghost use Rattle.std.specs.Prelude.{◌≡◌, ◌≤◌, List, ℕ, length};
ghost use Rattle.cred_table.specs.Rows.{pending_count};
ghost use Rattle.authn_core.specs.Views.{IsTurnByValue, valued_answer, without_drops};
ghost use Rattle.authn_core.specs.State.{Request as Asks, PresenceIs, KeyIs, SignatureIs, Cancel, Drop as DropWork, Nothing};
ghost use Rattle.authn_core.specs.Views.{IsValidNeed};
ghost use Rattle.authn_core.specs.Views.{IsTurn, first_contents, needs, to_answer, to_needed};

use crate::authenticator::{self, Config, Need};
use crate::replies::{NewKey, Presence, Signature};
use cred_table::Table;
use ctap_message::Answer;
use std::marker::Model;

/// The result of handling an event.
#[derive(Drop)]
pub enum Turn {
    /// The response.
    Answer(Answer),
    /// The request is pending with this KEEPALIVE status: 1 while the request is processed, 2 while user presence is
    /// needed (CTAP 2.1, section 11.2.9.1.7).
    Waits(u8),
    /// The reply is ignored, because no pending request needs it.
    Ignored,
}

/// Returns the result with its response.
fn turn_by_value(turn: authenticator::Turn, answer: Answer) -> Turn
    ensures { valued_answer result ≡ without_drops (to_answer turn answer.items) }
{
    match turn {
        authenticator::Turn::Answer | authenticator::Turn::Refuses(_) => Turn::Answer(answer),
        authenticator::Turn::Waits(status) => Turn::Waits(status.number()),
        authenticator::Turn::Ignored | authenticator::Turn::Nothing => Turn::Ignored,
    }
}

/// The authenticator with a table of at most `C` credentials, like [`authenticator::Core`].
#[derive(Drop)]
pub struct Core<T: Table<C>, const C: usize> {
    inner: authenticator::Core<T, C>,
}

impl<T: Table<C>, const C: usize> Model for Core<T, C> {
    ghost use Rattle.authn_core.specs.Turn.{CoreContents};

    ghost Value = { CoreContents };

    ghost view = { λ s. s.inner };
}

impl<T: Table<C>, const C: usize> Core<T, C> {
    /// Returns an authenticator that starts at time `start`, in milliseconds, with these credentials and no pending
    /// request.
    pub fn new(config: Config, table: T, start: u64) -> Self
        ensures { result ≡ first_contents (record { aaguid = config.aaguid; moment = start; capacity = C; rows = T.rows table }) }
    {
        Core {
            inner: authenticator::Core::new(config, table, start),
        }
    }

    /// Handles a request on the channel `cid` at time `at`. `message` consists of the command byte and the parameters.
    /// A request that was pending ends without a response.
    pub fn request(&mut self, at: u64, cid: u32, message: &[u8]) -> Turn
        ensures { IsTurnByValue self.old self.new result at (Asks cid message.now) }
    {
        let mut answer = Answer::new();
        let turn = self.inner.request(at, cid, message, &mut answer);
        turn_by_value(turn, answer)
    }

    /// Handles a user presence reply.
    pub fn presence(&mut self, at: u64, reply: Presence) -> Turn
        ensures { IsTurnByValue self.old self.new result at (PresenceIs reply) }
    {
        let mut answer = Answer::new();
        let turn = self.inner.presence(at, reply, &mut answer);
        turn_by_value(turn, answer)
    }

    /// Handles the reply to a key request: a new key pair, or `None` if the caller refuses.
    pub fn key(&mut self, at: u64, key: Option<NewKey>) -> Turn
        ensures { IsTurnByValue self.old self.new result at (KeyIs key) }
    {
        let mut answer = Answer::new();
        let turn = self.inner.key(at, key, &mut answer);
        turn_by_value(turn, answer)
    }

    /// Handles the reply to a signature request: a signature, or `None` if the caller refuses.
    pub fn signature(&mut self, at: u64, signature: Option<Signature>) -> Turn
        ensures { IsTurnByValue self.old self.new result at (SignatureIs signature) }
    {
        let mut answer = Answer::new();
        let turn = self.inner.signature(at, signature, &mut answer);
        turn_by_value(turn, answer)
    }

    /// Handles a CANCEL for the pending request.
    pub fn cancel(&mut self) -> Turn
        ensures { IsTurnByValue self.old self.new result 0 Cancel }
    {
        let mut answer = Answer::new();
        let turn = self.inner.cancel(&mut answer);
        turn_by_value(turn, answer)
    }

    /// Ends the pending request without a response.
    pub fn drop_work(&mut self)
        ensures { IsTurn self.old self.new Nothing 0 DropWork }
    {
        self.inner.drop_work();
    }

    /// Returns what the pending request needs, or [`Need::None`]. For a signature, at most 196 bytes are to be signed.
    pub fn need(&self) -> Need<'_>
        ensures value { to_needed result ≡ needs self.now.core.state.work }
        ensures sized { IsValidNeed (to_needed result) }
    {
        self.inner.need()
    }

    /// Returns the table.
    pub fn table(&self) -> &T
        ensures { T.rows result.now ≡ self.now.core.state.rows }
    {
        self.inner.table()
    }

    /// Returns the number of pending assertions.
    pub fn pending(&self) -> usize
        ensures value { result ≡ pending_count self.now.core.state.pending }
        ensures few { result ≤ C }
    {
        self.inner.pending()
    }

    /// Returns the number of steps that parsing the last request took. Before the first request, it is 0.
    pub fn last_steps(&self) -> u64
        ensures { result ≡ self.now.last_steps }
    {
        self.inner.last_steps()
    }
}
