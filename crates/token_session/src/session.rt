ghost use Rattle.std.specs.Prelude.{◌≡◌, ◌≤◌, [], ◌∷◌, List, Ok, length, MatchResult, OnOk};
ghost use Rattle.hid_assemble.specs.Assembly.{stored_len};
ghost use Rattle.authn_core.specs.Views.{IsValidNeed};
ghost use Rattle.authn_core.specs.Views.{first_contents, needs, to_needed};
ghost use Rattle.cred_table.specs.declared.row.Row.{Row as AnyRow};
ghost use Rattle.cred_table.specs.Snapshots.{Loads, Refuses};
ghost use Rattle.cred_table.specs.Rows.{pending_count};
ghost use Rattle.authn_core.specs.Turn.{Start};
ghost use Rattle.token_session.specs.declared.input.Input.TheVariants as inputs;
ghost use Rattle.token_session.specs.declared.input.Timed.{Timed as OneInput};
ghost use Rattle.token_session.specs.History.{received_after, received, held};
ghost use Rattle.token_session.specs.Answered.{packets_sent_now};
ghost use Rattle.token_session.specs.History.{sent_now};
ghost use Rattle.token_session.specs.Machine.{request_in};
ghost use Rattle.token_session.specs.Meters.{AreBounded, IsStateAfterValidStart, SessionState, IsStateAfter, counted, stepped, input_packets_of, session_of};
ghost use Rattle.token_session.specs.History.{time_cause, input_cause, causes_of, causes_after};
ghost use Rattle.token_session.specs.Machine.{time_passed, processed_input};
ghost use Rattle.token_session.specs.Noise.{is_noise_at, is_noise_after};
ghost use Rattle.hid_packet.specs.Packet.{MAX_STORED_LEN, OUTBOX_CAPACITY};

use crate::authenticator_state::{
    AuthenticatorState, KEEPALIVE_PERIOD, is_noise, send_init_response,
};
use crate::cause::{Cause, Causes};
use crate::input::{Input, Meters};
use crate::laws::answers_follow_history;
use authn_core::{Config, Core, Event, Need};
use cred_table::{SnapshotFault, Store, Table};
use hid_assemble::{Assembler, Refusal, Verdict};
use hid_packet::command::{CBOR, ERROR, KEEPALIVE, PING};
use hid_packet::{Outbox, Packet};
use std::marker::Model;

/// A session of a FIDO2 security key, from power-up to power-down, with capacity for `C` credentials. Allocates
/// nothing.
#[derive(Drop)]
pub struct Session<const C: usize> {
    /// The latest of the timestamps of the start and the inputs.
    latest: u64,
    assembler: Assembler,
    authenticator: AuthenticatorState<C>,
}

// In contracts, a session is the state of the composed machine and the meters.
impl<const C: usize> Model for Session<C> {
    ghost use Rattle.std.specs.Prelude.{◌≤◌};
    ghost use Rattle.token_session.specs.Meters.{SessionState, AreBounded};

    ghost Value = { SessionState };

    ghost view = { λ s. record {
      machine = record {
        now = s.latest;
        given = s.assembler.given;
        current = s.assembler.current;
        core = s.authenticator.core.core;
        keepalive_at = s.authenticator.keepalive_at;
      };
      meters = s.authenticator.meters;
    } };

    ghost invariant = { λ s. (s.authenticator.core.latest ≤ s.latest) × AreBounded s.authenticator.meters };
}

/// Returns the meters at the start of a session with this many credentials.
fn first_meters(rows: u16) -> Meters
    ensures { result ≡ record { held = 0; rows = rows; pending = 0; requests = 0; bytes = 0; steps = 0 } }
{
    Meters {
        held: 0,
        rows,
        pending: 0,
        requests: 0,
        bytes: 0,
        steps: 0,
    }
}

/// Returns an authenticator without credentials, which is created in place.
#[inline(never)]
fn empty_core<const C: usize>(aaguid: [u8; 16], start: u64) -> Core<Store<C>, C>
    requires some { 1 ≤ C }
    requires few { C ≤ 256 }
    ensures { result ≡ first_contents (record { aaguid = aaguid; moment = start; capacity = C; rows = [] }) }
{
    Core::new(Config { aaguid }, Store::new(), start)
}

impl<const C: usize> Session<C> {
    /// Returns a session that starts at time `start`, in milliseconds, with these credentials. No channel is allocated,
    /// and no request is pending.
    pub fn new(config: Config, rows: Store<C>, start: u64) -> Self
        ensures value { result ≡ session_of (record {
          aaguid = config.aaguid;
          moment = start;
          capacity = C;
          rows = ⟦<Store<C> as Table<C>>⟧.rows rows.entry;
        }) [] }
        ensures follows { IsStateAfterValidStart result (record {
          aaguid = config.aaguid;
          moment = start;
          capacity = C;
          rows = ⟦<Store<C> as Table<C>>⟧.rows rows.entry;
        }) [] }
    {
        let credentials = rows.len() as u16;
        Session {
            latest: start,
            assembler: Assembler::new(),
            authenticator: AuthenticatorState {
                core: Core::new(config, rows, start),
                keepalive_at: 0,
                meters: first_meters(credentials),
            },
        }
    }

    /// Returns a session without credentials that starts at time `start`, in milliseconds, for an authenticator with
    /// this AAGUID. No channel is allocated. The capacity `C` must be from 1 to 256 credentials. The session is created
    /// in place, because moving a session copies it (31 kB with 64 credentials).
    #[inline(never)]
    pub fn bare(aaguid: [u8; 16], start: u64) -> Self
        requires some { 1 ≤ C }
        requires few { C ≤ 256 }
        ensures value { result ≡ session_of (record { aaguid = aaguid; moment = start; capacity = C; rows = [] }) [] }
        ensures follows { IsStateAfterValidStart result (record { aaguid = aaguid; moment = start; capacity = C; rows = [] }) [] }
    {
        Session {
            latest: start,
            assembler: Assembler::new(),
            authenticator: AuthenticatorState {
                core: empty_core(aaguid, start),
                keepalive_at: 0,
                meters: first_meters(0),
            },
        }
    }

    /// Starts the session again at time `start`, in milliseconds. The credentials of the snapshot replace the previous
    /// ones. No channel is allocated, and no request is pending. If the snapshot is rejected, the session is unchanged.
    pub fn load(&mut self, config: Config, snapshot: &[u8], start: u64) -> Result<(), SnapshotFault>
        ensures value { MatchResult result
            (λ _. (rows : List AnyRow) × Loads C snapshot.now (Ok tt) rows
            × (self.new ≡ session_of (record { aaguid = config.aaguid; moment = start; capacity = C; rows = rows }) []))
            (λ fault. Refuses C snapshot.now fault × (self.new ≡ self.old)) }
        ensures follows { OnOk result ((rows : List AnyRow) × Loads C snapshot.now (Ok tt) rows
            × IsStateAfterValidStart self.new (record { aaguid = config.aaguid; moment = start; capacity = C; rows = rows }) []) }
    {
        self.authenticator.core.load(config, snapshot, start)?;
        self.latest = start;
        self.assembler = Assembler::new();
        self.authenticator.keepalive_at = 0;
        self.authenticator.meters = first_meters(self.authenticator.core.credentials() as u16);
        Ok(())
    }

    /// Processes one input at time `at`, in milliseconds, and appends the packets to send to the outbox, at most 130. A
    /// time earlier than the latest time counts as the latest time. This never fails. Returns the causes of refusals,
    /// if any.
    pub fn step(&mut self, at: u64, input: Input, outbox: &mut Outbox) -> Causes
        requires { outbox.old ≡ [] }
        // The new state and the packets are those of the composed machine.
        ensures state { self.new ≡ stepped self.old (record { at = at; input = input }) }
        ensures packets { outbox.new ≡ input_packets_of self.old (record { at = at; input = input }) }
        ensures few { length outbox.new ≤ OUTBOX_CAPACITY }
        // For each history that leads to the session's state, the history extended by this input leads to the new
        // state, and exactly the packets that the definitions in specs/ give for the input are sent.
        ensures after { (start : Start) (h : List OneInput) → IsStateAfter self.old start h
            → IsStateAfter self.new start (record { at = at; input = input } ∷ h) }
        ensures sent { (start : Start) (h : List OneInput) → IsStateAfter self.old start h
            → outbox.new ≡ sent_now start h (record { at = at; input = input }) }
        // If `start` is valid, the packets are exactly those that `packets_sent_now` gives. Its definition uses only
        // the start and the inputs, not the state of an authenticator.
        ensures follows { (start : Start) (h : List OneInput) → IsStateAfterValidStart self.old start h
            → IsStateAfterValidStart self.new start (record { at = at; input = input } ∷ h) }
        ensures told { (start : Start) (h : List OneInput) → IsStateAfterValidStart self.old start h
            → outbox.new ≡ packets_sent_now start h (record { at = at; input = input }) }
        // The causes of refusals are those of the composed machine, and those that the definitions in specs/ give for
        // the history.
        ensures why { result ≡ causes_of self.old.machine (record { at = at; input = input }) }
        ensures named { (start : Start) (h : List OneInput) → IsStateAfter self.old start h
            → result ≡ causes_after start h (record { at = at; input = input }) }
    {
        answers_follow_history();
        let now = self.latest.max(at);
        let time = self.pass_time(now, outbox);
        let why = self.serve(&input, outbox);
        self.authenticator.meters.held = self.authenticator.meters.held.max(self.assembler.held());
        self.authenticator.meters.rows = self
            .authenticator
            .meters
            .rows
            .max(self.authenticator.core.credentials() as u16);
        self.authenticator.meters.pending = self
            .authenticator
            .meters
            .pending
            .max(self.authenticator.core.pending() as u16);
        Causes { time, input: why }
    }

    /// Returns whether this input at time `at` would be noise: after time has passed to `at`, the input would change
    /// nothing. Noise is: a CANCEL without a pending request on its channel; a packet on a channel that isn't
    /// allocated, except INIT on the broadcast channel; an initialization packet, except INIT and CANCEL, while another
    /// channel has an open message or any channel has a pending request; a continuation packet without an open message
    /// on its channel; and a reply of the caller that isn't needed. A tick is never noise. The call doesn't change the
    /// session.
    pub fn noise(&self, at: u64, input: &Input) -> bool
        ensures state { result ≡ is_noise_at self.now.machine (record { at = at; input = input.now }) }
        // For each history that leads to the session's state, the input is noise after the history.
        ensures history { (start : Start) (h : List OneInput) → IsStateAfter self.now start h → result
            ≡ is_noise_after start (received_after start h (record { at = at; input = input.now })) (received start h) }
    {
        let now = self.latest.max(at);
        is_noise(&self.assembler, &self.authenticator.core, now, input)
    }

    /// Returns the number of data bytes of the open message that were received, at most 7550.
    pub fn held(&self) -> u16
        ensures bytes { result ≡ stored_len self.now.machine.current }
        ensures limit { result ≤ MAX_STORED_LEN }
        ensures named { (start : Start) (h : List OneInput) → IsStateAfter self.now start h
            → result ≡ held start (received start h) }
    {
        self.assembler.held()
    }

    /// Returns what the authenticator needs from its caller. For a signature, this includes the bytes to sign, at most
    /// 196.
    pub fn need(&self) -> Need<'_>
        ensures value { to_needed result ≡ needs self.now.machine.core.state.work }
        ensures sized { IsValidNeed (to_needed result) }
    {
        self.authenticator.core.need()
    }

    /// Returns the number of credentials, at most `C`.
    pub fn credentials(&self) -> usize
        ensures value { result ≡ length self.now.machine.core.state.rows }
        ensures limit { result ≤ C }
    {
        self.authenticator.core.credentials()
    }

    /// Returns the number of pending assertions, at most `C`.
    pub fn pending(&self) -> usize
        ensures value { result ≡ pending_count self.now.machine.core.state.pending }
        ensures limit { result ≤ C }
    {
        self.authenticator.core.pending()
    }

    /// Returns the credentials.
    pub fn table(&self) -> &Store<C>
        ensures { ⟦<Store<C> as Table<C>>⟧.rows result.now ≡ self.now.machine.core.state.rows }
    {
        self.authenticator.core.table()
    }

    /// Returns the meters of the session. Parsing its requests took at most four steps for each byte after a command
    /// byte, and two more for each request.
    pub fn meters(&self) -> Meters
        ensures value { result ≡ self.now.meters }
        ensures bounded { AreBounded result }
    {
        self.authenticator.meters
    }

    /// Advances the time to `at`. A message may time out, or a KEEPALIVE may be sent.
    #[tactic(auto, using(hid_packet::proofs::MessagePackets::few_written))]
    fn pass_time(&mut self, at: u64, outbox: &mut Outbox) -> Option<Refusal>
        requires sent { outbox.old ≡ [] }
        requires later { self.old.machine.now ≤ at }
        ensures state { self.new.machine ≡ (time_passed self.old.machine at).state }
        ensures meters { self.new.meters ≡ self.old.meters }
        ensures packets { outbox.new ≡ (time_passed self.old.machine at).packets }
        ensures why { result ≡ time_cause self.old.machine.current at }
    {
        self.latest = at;
        if self.assembler.overdue(at) {
            let last = self.assembler.last();
            let cid = self.assembler.pass(at)?;
            let why = Refusal::Overdue { last, at };
            outbox.put_message(cid, ERROR, &[why.code()]);
            return Some(why);
        }
        let Some(work) = self.authenticator.core.work() else {
            return None;
        };
        if at.saturating_sub(self.authenticator.keepalive_at) >= KEEPALIVE_PERIOD {
            self.authenticator.keepalive_at = at;
            outbox.put_message(work.cid, KEEPALIVE, &[work.status.number()]);
            None
        } else {
            None
        }
    }

    /// Processes an input, after the packets that are sent because time passed.
    fn serve(&mut self, input: &Input, outbox: &mut Outbox) -> Option<Cause>
        requires { length outbox.old ≤ 1 }
        ensures state { self.new.machine ≡ (processed_input self.old.machine outbox.old input.now).state }
        ensures meters { self.new.meters
            ≡ counted self.old.meters (request_in (processed_input self.old.machine outbox.old input.now).event) }
        ensures packets { outbox.new ≡ (processed_input self.old.machine outbox.old input.now).packets }
        ensures why { result ≡ input_cause self.old.machine input.now }
    {
        let now = self.latest;
        match input {
            Input::Tick => None,
            Input::Packet(packet) => self.serve_packet(packet, outbox),
            Input::Presence(reply) => self
                .authenticator
                .take(now, &Event::Presence(*reply), outbox),
            Input::Key(key) => self.authenticator.take(now, &Event::Key(key), outbox),
            Input::Signature(signature) => self
                .authenticator
                .take(now, &Event::Signature(signature), outbox),
        }
    }

    /// Processes a packet, after the packets that are sent because time passed.
    #[tactic(auto, using(hid_packet::proofs::MessagePackets::few_written))]
    fn serve_packet(&mut self, packet: &Packet, outbox: &mut Outbox) -> Option<Cause>
        requires { length outbox.old ≤ 1 }
        ensures state { self.new.machine ≡ (processed_input self.old.machine outbox.old (inputs.Packet packet.now)).state }
        ensures meters { self.new.meters
            ≡ counted self.old.meters (request_in (processed_input self.old.machine outbox.old (inputs.Packet packet.now)).event) }
        ensures packets { outbox.new ≡ (processed_input self.old.machine outbox.old (inputs.Packet packet.now)).packets }
        ensures why { result ≡ input_cause self.old.machine (inputs.Packet packet.now) }
    {
        let now = self.latest;
        let working = self.authenticator.core.work().map(|work| work.cid);
        match self.assembler.accept(now, packet, working) {
            Verdict::Ignored | Verdict::Kept => None,
            Verdict::Refuse { cid, why } => {
                outbox.put_message(cid, ERROR, &[why.code()]);
                Some(Cause::Transport(why))
            }
            Verdict::Greet { on, channel, nonce } => {
                send_init_response(outbox, on, channel, &nonce);
                None
            }
            Verdict::GreetAndDrop { on, channel, nonce } => {
                send_init_response(outbox, on, channel, &nonce);
                self.authenticator.take(now, &Event::Drop, outbox)
            }
            Verdict::CancelWork => self.authenticator.take(now, &Event::Cancel, outbox),
            Verdict::Finished { cid, cmd } => {
                let message = self.assembler.message();
                if cmd == PING {
                    outbox.put_message(cid, PING, message);
                    None
                } else if cmd == CBOR {
                    self.authenticator
                        .take(now, &Event::Request { cid, message }, outbox)
                } else {
                    None
                }
            }
        }
    }
}
