//! The authenticator.

ghost use Rattle.std.specs.Prelude.{◌≡◌, ◌≤◌, max, option_map, length, List, Ok, MatchResult};
ghost use Rattle.cred_table.specs.declared.row.Row.{Row as AnyRow};
ghost use Rattle.cred_table.specs.Snapshots.{Loads, Refuses};
ghost use Rattle.cred_table.specs.Rows.{pending_count};
ghost use Rattle.authn_core.specs.State.{Request as Asks, PresenceIs, KeyIs, SignatureIs, Cancel, Drop as DropWork, Nothing};
ghost use Rattle.authn_core.specs.Turn.{waiting, core_refusal};
ghost use Rattle.authn_core.specs.Views.{IsValidNeed};
ghost use Rattle.authn_core.specs.Views.{IsTurn, to_answer, refusal_of, first_contents, to_event, needs, to_needed, is_presence, is_key, is_sign, sign as needs_sign, to_work};

use crate::event::Event;
use crate::refusal::Refusal;
use crate::replies::{NewKey, Presence, Signature};
use crate::task::{PendingTask, Task};
use crate::work::{KeepaliveStatus, Work};
use arrayvec::ArrayVec;
use cred_table::{Pending, SnapshotFault, Table, load};
use ctap_message::{Answer, parse_request};
use std::marker::Model;

/// The result of handling an event.
#[derive(Clone, Copy, Debug, PartialEq, Eq)]
pub enum Turn {
    /// The response was written.
    Answer,
    /// The command was refused: the response with the status of the error was written.
    Refuses(Refusal),
    /// The request is pending with this KEEPALIVE status.
    Waits(KeepaliveStatus),
    /// The reply is ignored, because no pending request needs it.
    Ignored,
    /// The pending request was dropped without a response.
    Nothing,
}

/// What the authenticator needs from its caller.
#[derive(Clone, Copy, Debug, PartialEq, Eq)]
pub enum Need<'a> {
    /// Nothing.
    None,
    /// User presence.
    Presence,
    /// A new key pair.
    Key,
    /// A signature by the credential's private key.
    Sign {
        /// The credential ID.
        id: &'a [u8; 32],
        /// The bytes to sign.
        signed: &'a [u8],
    },
}

impl Need<'_> {
    /// Returns whether user presence is needed.
    pub fn is_presence(&self) -> bool
        ensures { result ≡ is_presence (to_needed self.now) }
    {
        matches!(self, Need::Presence)
    }

    /// Returns whether a new key pair is needed.
    pub fn is_key(&self) -> bool
        ensures { result ≡ is_key (to_needed self.now) }
    {
        matches!(self, Need::Key)
    }

    /// Returns whether a signature is needed.
    pub fn is_sign(&self) -> bool
        ensures { result ≡ is_sign (to_needed self.now) }
    {
        matches!(self, Need::Sign { .. })
    }
}

/// Returns the need for a signature over these bytes with the credential's private key.
fn signature_need<'a>(id: &'a [u8; 32], signed: &'a ArrayVec<u8, 196>) -> Need<'a>
    ensures value { to_needed result ≡ needs_sign id.now signed.now.items }
    ensures sized { IsValidNeed (to_needed result) }
{
    Need::Sign {
        id,
        signed: signed.as_slice(),
    }
}

/// The configuration of an authenticator.
#[derive(Clone, Copy, Debug, Default, PartialEq, Eq)]
pub struct Config {
    /// The AAGUID, which identifies the authenticator's model (WebAuthn Level 2, section 6.1).
    pub aaguid: [u8; 16],
}

/// The authenticator, with a table of at most `C` credentials. The time of an event, in milliseconds, is the latest of
/// all timestamps so far, including that of the start. No call allocates.
#[derive(Drop)]
pub struct Core<T: Table<C>, const C: usize> {
    pub(crate) config: Config,
    pub(crate) began: u64,
    pub(crate) latest: u64,
    pub(crate) last_steps: u64,
    pub(crate) table: T,
    pub(crate) pending: Pending<C>,
    pub(crate) work: Option<PendingTask>,
    /// The IDs of the credentials that may sign for the last getAssertion. They are stored here because a new list
    /// would be filled with zeros each time.
    pub(crate) applicable: ArrayVec<[u8; 32], C>,
}

// In contracts, an authenticator is its state and the number of steps of parsing the last request.
impl<T: Table<C>, const C: usize> Model for Core<T, C> {
    ghost use Rattle.std.specs.Prelude.{◌≤◌, option_map};
    ghost use Rattle.authn_core.specs.Turn.{CoreContents};
    ghost use Rattle.authn_core.specs.Turn.{Ready, WorkSignsItsResponse};
    ghost use Rattle.authn_core.specs.Views.{to_pending_task};

    ghost Value = { CoreContents };

    ghost view = { λ s. record {
      core = record {
        setup = record { aaguid = s.config.aaguid; began = s.began; capacity = C };
        state = record { rows = T.rows s.table; pending = s.pending; work = option_map to_pending_task s.work };
      };
      latest = s.latest;
      last_steps = s.last_steps;
    } };

    ghost invariant = { λ s. (s.began ≤ s.latest) × Ready C (record { rows = T.rows s.table; pending = s.pending; work = option_map to_pending_task s.work })
        × WorkSignsItsResponse s.config.aaguid (option_map to_pending_task s.work) };
}

impl<T: Table<C>, const C: usize> Core<T, C> {
    /// Returns an authenticator that starts at time `start`, in milliseconds, with these credentials and no pending
    /// request.
    pub fn new(config: Config, table: T, start: u64) -> Self
        ensures { result ≡ first_contents (record { aaguid = config.aaguid; moment = start; capacity = C; rows = T.rows table }) }
    {
        Core {
            config,
            began: start,
            latest: start,
            last_steps: 0,
            table,
            pending: Pending::new(),
            work: None,
            applicable: ArrayVec::new(),
        }
    }

    /// Restarts the authenticator with this configuration at time `start`, in milliseconds. The credentials of the
    /// snapshot replace the previous ones, and no request is pending. If the snapshot is rejected, nothing changes.
    pub fn load(&mut self, config: Config, snapshot: &[u8], start: u64) -> Result<(), SnapshotFault>
        ensures { MatchResult result
            (λ _. (rows : List AnyRow) × Loads C snapshot.now (Ok tt) rows
            × (self.new ≡ first_contents (record { aaguid = config.aaguid; moment = start; capacity = C; rows = rows })))
            (λ fault. Refuses C snapshot.now fault × (self.new ≡ self.old)) }
    {
        load(snapshot, &mut self.table)?;
        self.config = config;
        self.began = start;
        self.latest = start;
        self.last_steps = 0;
        self.pending.clear();
        self.work = None;
        Ok(())
    }

    /// Handles a request on the channel `cid` at time `at`. `message` consists of the command byte and the parameters.
    /// A request that was pending ends without a response.
    pub fn request(&mut self, at: u64, cid: u32, message: &[u8], answer: &mut Answer) -> Turn
        ensures { IsTurn self.old self.new (to_answer result answer.new.items) at (Asks cid message.now) }
    {
        self.take(at, &Event::Request { cid, message }, answer)
    }

    /// Handles a user presence reply.
    pub fn presence(&mut self, at: u64, reply: Presence, answer: &mut Answer) -> Turn
        ensures { IsTurn self.old self.new (to_answer result answer.new.items) at (PresenceIs reply) }
    {
        self.take(at, &Event::Presence(reply), answer)
    }

    /// Handles the reply to a key request: a new key pair, or `None` if the caller refuses.
    pub fn key(&mut self, at: u64, key: Option<NewKey>, answer: &mut Answer) -> Turn
        ensures { IsTurn self.old self.new (to_answer result answer.new.items) at (KeyIs key) }
    {
        self.take(at, &Event::Key(&key), answer)
    }

    /// Handles the reply to a signature request: a signature, or `None` if the caller refuses.
    pub fn signature(&mut self, at: u64, signature: Option<Signature>, answer: &mut Answer) -> Turn
        ensures { IsTurn self.old self.new (to_answer result answer.new.items) at (SignatureIs signature) }
    {
        self.take(at, &Event::Signature(&signature), answer)
    }

    /// Handles a CANCEL for the pending request.
    pub fn cancel(&mut self, answer: &mut Answer) -> Turn
        ensures { IsTurn self.old self.new (to_answer result answer.new.items) 0 Cancel }
    {
        self.take(0, &Event::Cancel, answer)
    }

    /// Ends the pending request without a response.
    #[tactic(auto, unfolding(crate::specs::Turn::turn))]
    pub fn drop_work(&mut self)
        ensures { IsTurn self.old self.new Nothing 0 DropWork }
    {
        self.take(0, &Event::Drop, &mut Answer::new());
    }

    /// Handles an event at time `at`. For [`Turn::Answer`] and [`Turn::Refuses`] the response is in `answer`. Not
    /// inlined, because otherwise the compiler doesn't inline the parser of requests here.
    #[inline(never)]
    #[tactic(auto, unfolding(crate::specs::Turn::turn))]
    pub fn take(&mut self, at: u64, event: &Event<'_>, answer: &mut Answer) -> Turn
        ensures turn { IsTurn self.old self.new (to_answer result answer.new.items) at (to_event event.now) }
        ensures why { refusal_of result ≡ core_refusal self.old.core (max self.old.latest at) (to_event event.now) }
    {
        self.latest = self.latest.max(at);
        match event {
            Event::Request { cid, message } => {
                let (request, steps) = parse_request(message);
                self.last_steps = steps;
                self.serve(*cid, request, answer)
            }
            Event::Presence(_) | Event::Key(_) | Event::Signature(_) => self.reply(event, answer),
            Event::Cancel => self.refuse_and_clear(Refusal::Cancelled, answer),
            Event::Drop => {
                self.pending.clear();
                self.work = None;
                Turn::Nothing
            }
        }
    }

    /// Returns what the pending request needs, or [`Need::None`]. For a signature, at most 196 bytes are to be signed.
    pub fn need(&self) -> Need<'_>
        ensures value { to_needed result ≡ needs self.now.core.state.work }
        ensures sized { IsValidNeed (to_needed result) }
    {
        let Some(PendingTask { task, .. }) = &self.work else {
            return Need::None;
        };
        match task {
            Task::AwaitResetPresence
            | Task::AwaitSelectionPresence
            | Task::AwaitMakePresence(..)
            | Task::AwaitAssertPresence(_) => { Need::Presence }
            Task::AwaitKeyPair(_) => Need::Key,
            Task::AwaitMakeSignature(_, key, signed) => signature_need(&key.id, signed),
            Task::AwaitAssertSignature(a, _, signed) => signature_need(&a.id, signed),
        }
    }

    /// Returns the pending request, if any.
    pub fn work(&self) -> Option<Work>
        ensures { waiting self.now.core ≡ option_map to_work result }
    {
        let Some(PendingTask { cid, task }) = &self.work else {
            return None;
        };
        Some(Work {
            cid: *cid,
            status: task.status(),
        })
    }

    /// Returns the table.
    pub fn table(&self) -> &T
        ensures { T.rows result.now ≡ self.now.core.state.rows }
    {
        &self.table
    }

    /// Returns the number of credentials, at most `C`.
    pub fn credentials(&self) -> usize
        ensures value { result ≡ length self.now.core.state.rows }
        ensures few { (result ≤ C) × (C ≤ 256) }
    {
        self.table.len()
    }

    /// Returns the number of pending assertions.
    pub fn pending(&self) -> usize
        ensures value { result ≡ pending_count self.now.core.state.pending }
        ensures few { result ≤ C }
    {
        self.pending.len()
    }

    /// Returns the number of steps that parsing the last request took. Before the first request, it is 0.
    pub fn last_steps(&self) -> u64
        ensures { result ≡ self.now.last_steps }
    {
        self.last_steps
    }
}
