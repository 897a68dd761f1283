//! The authenticator in a session, and the packets that are sent with its answers.
ghost use Rattle.std.specs.Prelude.{◌≡◌, ◌+◌, ◌≤◌, ◌++◌, Some, length, option_map, if◌then◌else◌};
ghost use Rattle.hid_assemble.specs.Assembly.{still_open};
ghost use Rattle.authn_core.specs.Views.{to_answer, to_event, to_work};
ghost use Rattle.token_session.specs.Machine.{answer_packets, init_response, status_of};
ghost use Rattle.token_session.specs.Machine.{response_sends_keepalive, event_sends_keepalive};
ghost use Rattle.token_session.specs.Meters.{AreBounded, counted};
ghost use Rattle.token_session.specs.Noise.{is_noise_among};
ghost use Rattle.token_session.specs.Machine.{request_in};
ghost use Rattle.token_session.specs.History.{event_cause};
ghost use Rattle.token_session.specs.Machine.{event_core, event_packets};
ghost use Rattle.hid_packet.specs.Packet.{OUTBOX_CAPACITY};

use crate::cause::{Cause, cause_of};
use crate::input::{Input, Meters};
use arrayvec::ArrayVec;
use authn_core::{Core, Event, Turn, Work};
use byteorder::{BigEndian, ByteOrder};
use cred_table::Store;
use ctap_message::Answer;
use ctap_message::laws::steps_are_bounded;
use hid_assemble::Assembler;
use hid_packet::Outbox;
use hid_packet::command::{CBOR, INIT, KEEPALIVE};

/// The time between two KEEPALIVE packets while a request is pending, in milliseconds.
pub const KEEPALIVE_PERIOD: u64 = 100;

/// The device data of an INIT response: protocol version 2, device version 1.0.0, and the capabilities CBOR and NMSG
/// (CTAP 2.1, section 11.2.9.1.3).
const DEVICE_INFO: [u8; 5] = [2, 1, 0, 0, 0x0c];

/// Sends the response to INIT on the channel `on`. The response contains the channel ID `channel`.
#[tactic(auto, using(hid_packet::proofs::MessagePackets::few_written), unfolding(crate::specs::Machine::init_response))]
pub(crate) fn send_init_response(outbox: &mut Outbox, on: u32, channel: u32, nonce: &[u8; 8])
    requires { length outbox.old ≤ 1 }
    ensures { outbox.new ≡ outbox.old ++ init_response on channel nonce.now }
{
    let mut cid = [0; 4];
    BigEndian::write_u32(&mut cid, channel);
    let mut answer: ArrayVec<u8, 17> = ArrayVec::new();
    let _ = answer.try_extend_from_slice(nonce);
    let _ = answer.try_extend_from_slice(&cid);
    let _ = answer.try_extend_from_slice(&DEVICE_INFO);
    outbox.put_message(on, INIT, answer.as_slice());
}

/// The authenticator in a session, with the timestamp of its last KEEPALIVE, and the meters.
#[derive(Drop)]
pub(crate) struct AuthenticatorState<const C: usize> {
    pub(crate) core: Core<Store<C>, C>,
    pub(crate) keepalive_at: u64,
    pub(crate) meters: Meters,
}

impl<const C: usize> AuthenticatorState<C> {
    /// Handles an event. If the event is a request, updates the meters. The packets of the answer are sent on the
    /// channel of the request. Returns the cause of a refusal, if any.
    pub(crate) fn take(&mut self, now: u64, event: &Event<'_>, outbox: &mut Outbox) -> Option<Cause>
        requires later { self.old.core.latest ≤ now }
        requires bounded { AreBounded self.old.meters }
        requires few { length outbox.old + length (event_packets self.old.core.core now (Some (to_event event.now)))
            ≤ OUTBOX_CAPACITY }
        ensures core { self.new.core.core ≡ event_core self.old.core.core now (Some (to_event event.now)) }
        ensures latest { self.new.core.latest ≤ now }
        ensures keepalive { self.new.keepalive_at ≡ (if event_sends_keepalive self.old.core.core now
            (Some (to_event event.now)) then now else self.old.keepalive_at) }
        ensures meters { self.new.meters ≡ counted self.old.meters (request_in (Some (to_event event.now))) }
        ensures bounded { AreBounded self.new.meters }
        ensures packets { outbox.new ≡ outbox.old
            ++ event_packets self.old.core.core now (Some (to_event event.now)) }
        ensures why { result ≡ event_cause self.old.core.core now (Some (to_event event.now)) }
    {
        steps_are_bounded();
        let before = self.core.work();
        let mut answer = Answer::new();
        let turn = self.core.take(now, event, &mut answer);
        let why = cause_of(turn, event);
        match event {
            Event::Request { cid, message } => {
                let meters = &mut self.meters;
                let parameter_bytes = (message.len() as u64).saturating_sub(1);
                meters.requests = meters.requests.saturating_add(1);
                meters.bytes = meters.bytes.saturating_add(parameter_bytes);
                meters.steps = meters.steps.saturating_add(self.core.last_steps());
                self.send(now, *cid, before, turn, &answer, outbox);
                why
            }
            Event::Presence(_)
            | Event::Key(_)
            | Event::Signature(_)
            | Event::Cancel
            | Event::Drop => {
                if let Some(work) = before {
                    self.send(now, work.cid, before, turn, &answer, outbox);
                    why
                } else {
                    why
                }
            }
        }
    }

    /// Sends the packets of the answer to an event on a channel. `before` is the request that was pending before the
    /// event.
    #[inline(always)]
    #[tactic(auto, unfolding(crate::specs::Machine::answer_packets, crate::specs::Machine::response_sends_keepalive))]
    fn send(
        &mut self,
        now: u64,
        cid: u32,
        before: Option<Work>,
        turn: Turn,
        answer: &Answer,
        outbox: &mut Outbox,
    )
        requires { length outbox.old + length (answer_packets (Some cid) (status_of (option_map to_work before))
            (to_answer turn answer.now.items)) ≤ OUTBOX_CAPACITY }
        ensures others { self.new ≡ record self.old { keepalive_at = self.new.keepalive_at } }
        ensures keepalive { self.new.keepalive_at ≡ (if response_sends_keepalive (Some cid)
            (status_of (option_map to_work before)) (to_answer turn answer.now.items)
            then now else self.old.keepalive_at) }
        ensures packets { outbox.new ≡ outbox.old ++ answer_packets (Some cid)
            (status_of (option_map to_work before)) (to_answer turn answer.now.items) }
    {
        match turn {
            Turn::Answer | Turn::Refuses(_) => outbox.put_message(cid, CBOR, answer.as_slice()),
            Turn::Waits(status) => {
                if !matches!(before, Some(work) if work.status == status) {
                    self.keepalive_at = now;
                    outbox.put_message(cid, KEEPALIVE, &[status.number()]);
                }
            }
            Turn::Ignored | Turn::Nothing => {}
        }
    }
}

/// Returns whether an input is ignored ("noise" in the theorem), after time has passed to `now`.
pub fn is_noise<const C: usize>(
    assembler: &Assembler,
    core: &Core<Store<C>, C>,
    now: u64,
    input: &Input,
) -> bool
    ensures { result ≡ is_noise_among assembler.now.given (still_open assembler.now.current now)
        core.now.core input.now }
{
    match input {
        Input::Packet(packet) => assembler.is_noise(now, packet, core.work().map(|work| work.cid)),
        Input::Tick => false,
        Input::Presence(_) => !core.need().is_presence(),
        Input::Key(_) => !core.need().is_key(),
        Input::Signature(_) => !core.need().is_sign(),
    }
}
