//! Passing a list of inputs to a session, or two lists to two sessions.
ghost use Rattle.std.specs.Prelude.{◌≡◌, ◌+◌, ◌<◌, ◌≤◌, ◌++◌, ◌⊎◌, List, [], length, map, reverse, take, IfErr, IfOk};
ghost use Rattle.arrayvec.specs.ArrayVec.{array_vec_len};
ghost use Rattle.authn_core.specs.Turn.{Start};
ghost use Rattle.token_session.specs.declared.input.Timed.{Timed as OneInput};
ghost use Rattle.token_session.specs.Carried.{ArriveWithFullPackets, HasFullPacket};
ghost use Rattle.token_session.specs.Meters.{numbered_packet, packet_of, drive_both_number, drive_number, inputs_done, first_inputs_done, second_inputs_done, HadCapacity, IsDriven};
ghost use Rattle.token_session.specs.Answered.{IsAnswered, HasInternalProperties, start_of};
ghost use Rattle.token_session.specs.Answered.{packets_sent_from};
ghost use Rattle.token_session.specs.History.{with_input_number, append_inputs, sent_from};
ghost use Rattle.token_session.specs.History.{received};
ghost use Rattle.token_session.specs.Meters.{IsStateAfterValidStart, IsStateAfter, meters_of, session_of};
ghost use Rattle.token_session.specs.Noise.{HasTicksForNoise, quiet_from};
ghost use Rattle.hid_packet.specs.Packet.{OUTBOX_CAPACITY};

use crate::input::{Input, Meters, Sent, Timed};
use crate::laws::{answers_follow_history, every_history_is_answered};
use crate::session::Session;
use arrayvec::ArrayVec;
use authn_core::Config;
use cred_table::{Store, Table};
use hid_packet::{OUTBOX_CAPACITY, Outbox, Packet};
use thiserror::Error;

/// The error of [`drive`].
#[derive(Clone, Copy, Debug, Error, PartialEq, Eq)]
pub enum DriveFault {
    /// 1: before the next input, there was capacity for fewer than 130 packets. `done` inputs were processed.
    #[error("the list of packets is full after {done} inputs")]
    Full { done: usize },
}

impl DriveFault {
    /// Returns the number of the error.
    pub fn number(&self) -> u8
        ensures { result ≡ drive_number self.now }
    {
        match self {
            DriveFault::Full { .. } => 1,
        }
    }
}

/// The error of [`drive_both`].
#[derive(Clone, Copy, Debug, Error, PartialEq, Eq)]
pub enum BothFault {
    /// 1: a list of packets had too little capacity. `first` and `second` are the numbers of inputs that the two
    /// sessions have processed.
    #[error("a list of packets is full after {first} and {second} inputs")]
    Full { first: usize, second: usize },
}

impl BothFault {
    /// Returns the number of the error.
    pub fn number(&self) -> u8
        ensures { result ≡ drive_both_number self.now }
    {
        match self {
            BothFault::Full { .. } => 1,
        }
    }
}

/// Moves all packets to the list, with the number of the input for which they were sent.
fn collect_packets<const N: usize>(outbox: &mut Outbox, number: u64, sent: &mut ArrayVec<Sent, N>)
    requires { array_vec_len sent.old + length outbox.old ≤ N }
    ensures sent { map numbered_packet sent.new.items ≡ map numbered_packet sent.old.items ++ with_input_number number outbox.old }
    ensures empty { outbox.new ≡ [] }
{
    while let Some(packet) = outbox.pop() {
        sent.push(Sent {
            input: number,
            packet,
        });
    }
}

/// States for proofs that a packet has 64 bytes. Has no effect when called.
fn packet_bounds(packet: &Packet)
    ensures { length packet.now.0 ≡ 64 }
{
    let _bytes = packet.0.as_slice();
}

/// States for proofs that the packet in an input, if any, has 64 bytes. Has no effect when called.
fn input_bounds(input: &Input)
    ensures { HasFullPacket input.now }
{
    if let Input::Packet(packet) = input {
        packet_bounds(packet);
    }
}

/// Passes the inputs to a session, and appends the packets that are sent for them. Stops before the first input at
/// which there is capacity for fewer than 130 packets.
pub fn drive<const C: usize, const N: usize>(
    session: &mut Session<C>,
    inputs: &[Timed],
    sent: &mut ArrayVec<Sent, N>,
) -> Result<Meters, DriveFault>
    // The session and the list are exactly those after the inputs that were processed.
    ensures run { IsDriven N session.old session.new (map numbered_packet sent.old.items) (map numbered_packet sent.new.items)
        inputs.now (inputs_done (length inputs.now) result) }
    ensures meters { IfOk result (λ meters. meters ≡ session.new.meters) }
    // Each packet in the inputs that were processed has 64 bytes.
    ensures whole { ArriveWithFullPackets (take (inputs_done (length inputs.now) result) inputs.now) }
    // The call fails if and only if the capacity is too small.
    ensures full { IfErr result (λ e. (inputs_done 0 result < length inputs.now)
        × (N < array_vec_len sent.new + OUTBOX_CAPACITY)) }
    // For each history that leads to the session's state, the extended history leads to the new state.
    ensures after { (start : Start) (h : List OneInput) → IsStateAfter session.old start h
        → IsStateAfter session.new start (append_inputs (take (inputs_done (length inputs.now) result) inputs.now) h) }
    ensures sent { (start : Start) (h : List OneInput) → IsStateAfter session.old start h
        → map numbered_packet sent.new.items ≡ map numbered_packet sent.old.items
        ++ sent_from 0 start h (take (inputs_done (length inputs.now) result) inputs.now) }
    ensures follows { (start : Start) (h : List OneInput) → IsStateAfterValidStart session.old start h
        → IsStateAfterValidStart session.new start (append_inputs (take (inputs_done (length inputs.now) result) inputs.now) h) }
    ensures told { (start : Start) (h : List OneInput) → IsStateAfterValidStart session.old start h
        → map numbered_packet sent.new.items ≡ map numbered_packet sent.old.items
        ++ packets_sent_from 0 start h (take (inputs_done (length inputs.now) result) inputs.now) }
{
    answers_follow_history();
    let mut outbox = Outbox::new();
    for (i, timed) in inputs.iter().enumerate() {
        if sent.remaining_capacity() < OUTBOX_CAPACITY {
            return Err(DriveFault::Full { done: i });
        }
        input_bounds(&timed.input);
        session.step(timed.at, timed.input, &mut outbox);
        collect_packets(&mut outbox, i as u64, sent);
    }
    Ok(session.meters())
}

/// Creates a session and passes the inputs to it. The packets that are sent replace the content of `sent`. Stops before
/// the first input at which there is capacity for fewer than 130 packets. The contract is the main theorem: for every
/// start and every list of inputs, the packets that are sent are exactly those that the definitions in specs/ give for
/// the history.
pub fn drive_new<const C: usize, const N: usize>(
    config: Config,
    rows: Store<C>,
    start: u64,
    inputs: &[Timed],
    sent: &mut ArrayVec<Sent, N>,
) -> Result<Meters, DriveFault>
    ensures answered { IsAnswered (start_of config.aaguid start C (⟦<Store<C> as Table<C>>⟧.rows rows.entry))
        (reverse (take (inputs_done (length inputs.now) result) inputs.now)) (map packet_of sent.new.items) }
    ensures bounded { HasInternalProperties (start_of config.aaguid start C (⟦<Store<C> as Table<C>>⟧.rows rows.entry))
        (reverse (take (inputs_done (length inputs.now) result) inputs.now)) }
    // Each packet has the number of its input.
    ensures numbers { map numbered_packet sent.new.items
        ≡ packets_sent_from 0 (start_of config.aaguid start C (⟦<Store<C> as Table<C>>⟧.rows rows.entry)) []
        (take (inputs_done (length inputs.now) result) inputs.now) }
    ensures meters { IfOk result (λ meters. meters
        ≡ meters_of (start_of config.aaguid start C (⟦<Store<C> as Table<C>>⟧.rows rows.entry))
        (received (start_of config.aaguid start C (⟦<Store<C> as Table<C>>⟧.rows rows.entry)) (reverse inputs.now))) }
    // The call fails if and only if the capacity is too small.
    ensures full { IfErr result (λ e. (inputs_done 0 result < length inputs.now)
        × (N < array_vec_len sent.new + OUTBOX_CAPACITY)) }
    // Before each input that was processed, there was capacity for 130 packets.
    ensures capacity { HadCapacity N []
        (session_of (start_of config.aaguid start C (⟦<Store<C> as Table<C>>⟧.rows rows.entry)) [])
        inputs.now (inputs_done (length inputs.now) result) }
{
    every_history_is_answered();
    sent.clear();
    let mut session = Session::new(config, rows, start);
    drive(&mut session, inputs, sent)
}

/// Passes a list of inputs to one session, and then another list to another session. If the second list has ticks in
/// place of ignored inputs of the first, both sessions end in the same state, and the second list of packets is the
/// first without the responses to the ignored inputs.
pub fn drive_both<const C: usize, const N: usize>(
    first: &mut Session<C>,
    second: &mut Session<C>,
    inputs: &[Timed],
    quiet: &[Timed],
    sent: &mut ArrayVec<Sent, N>,
    quiet_sent: &mut ArrayVec<Sent, N>,
) -> Result<(Meters, Meters), BothFault>
    // The contract of `drive` holds for both runs.
    ensures first { IsDriven N first.old first.new (map numbered_packet sent.old.items) (map numbered_packet sent.new.items)
        inputs.now (first_inputs_done (length inputs.now) result) }
    ensures second { IsDriven N second.old second.new (map numbered_packet quiet_sent.old.items)
        (map numbered_packet quiet_sent.new.items) quiet.now (second_inputs_done (length quiet.now) result) }
    ensures meters { IfOk result (λ meters. (meters.0 ≡ first.new.meters) × (meters.1 ≡ second.new.meters)) }
    // The call fails if and only if one of the two runs fails. If the first one fails, the second one isn't begun.
    ensures full { IfErr result (λ e.
        ((first_inputs_done 0 result < length inputs.now) × (N < array_vec_len sent.new + OUTBOX_CAPACITY)
        × (second_inputs_done 0 result ≡ 0))
        ⊎ ((first_inputs_done 0 result ≡ length inputs.now) × (second_inputs_done 0 result < length quiet.now)
        × (N < array_vec_len quiet_sent.new + OUTBOX_CAPACITY))) }
    // If the second of two histories with the same start has ticks in place of ignored inputs before the run, the same
    // is true after the run.
    ensures alike { (start : Start) (h g : List OneInput) → IsStateAfter first.old start h
        → IsStateAfter second.old start g → HasTicksForNoise start h g → HasTicksForNoise start (append_inputs inputs.now h) (append_inputs quiet.now g)
        → IfOk result (λ meters. (first.new ≡ second.new) × (meters.0 ≡ meters.1)
        × (map numbered_packet quiet_sent.new.items ≡ map numbered_packet quiet_sent.old.items
        ++ quiet_from 0 start h inputs.now quiet.now)) }
{
    let one = drive(first, inputs, sent).map_err(|DriveFault::Full { done }| BothFault::Full {
        first: done,
        second: 0,
    })?;
    let two = drive(second, quiet, quiet_sent).map_err(|DriveFault::Full { done }| BothFault::Full {
        first: inputs.len(),
        second: done,
    })?;
    Ok((one, two))
}
