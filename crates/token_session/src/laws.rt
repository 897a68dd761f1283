//! Laws about the definitions. The state machine of transport and authenticator sends, for any history, exactly the
//! packets that the definitions in specs/ give for the history. Each function has an empty body, and its contract is
//! the law.

ghost use Rattle.std.specs.Prelude.{◌≡◌, ◌≤◌, ◌⊎◌, ◌+◌, ◌*◌, ℕ, List, [], ◌∷◌, length, max, true, Some, None, option_to_list, if◌then◌else◌};
ghost use Rattle.token_session.specs.declared.input.Timed.{Timed as OneInput};
ghost use Rattle.authn_core.specs.State.{Request};
ghost use Rattle.cred_table.specs.Rows.{ValidRows};
ghost use Rattle.authn_core.specs.Turn.{CoreState, Start, working_channel, first_state, waiting};
ghost use Rattle.authn_core.specs.Marks.{changes, rows_after_changes, signs_by, signed_assertions, all_differ};
ghost use Rattle.authn_core.specs.Marks.{counters_increase, IsNewest};
ghost use Rattle.authn_core.specs.Signed.{IsNeeded};
ghost use Rattle.authn_core.specs.Views.{needs, sign};
ghost use Rattle.ctap_message.specs.Responses.{info_answer};
ghost use Rattle.hid_packet.specs.Packet.{CBOR, PING};
ghost use Rattle.hid_packet.specs.Message.{message_packets};
ghost use Rattle.hid_packet.specs.declared.packet.Packet.{Packet as AnyPacket};
ghost use Rattle.token_session.specs.declared.input.Input.TheVariants.{Packet as PacketCame, Signature as SignatureCame};
ghost use Rattle.hid_packet.specs.Message.{CarriesMessage};
ghost use Rattle.hid_assemble.specs.Assembly.{Assembly, Message};
ghost use Rattle.token_session.specs.declared.input.Input.{Input};
ghost use Rattle.token_session.specs.Carried.{MessageArrives};
ghost use Rattle.token_session.specs.Carried.{ArriveWithFullPackets, completed_packets_at};
ghost use Rattle.token_session.specs.Inputs.{latest_time, channels_allocated};
ghost use Rattle.token_session.specs.Inputs.{message_completed_at, open_at};
ghost use Rattle.token_session.specs.History.{received_after, received, held, core, sent, service_packets, last_keepalive};
ghost use Rattle.token_session.specs.Machine.{MachineState, machine, turn, time_passed};
ghost use Rattle.token_session.specs.Machine.{event_packets};
ghost use Rattle.token_session.specs.History.{all_open, IsMachineAfter, sent_now, append_inputs, sent_from, run_state, run_sent, turns_send, has_keepalive};
ghost use Rattle.token_session.specs.Answered.{steps};
ghost use Rattle.token_session.specs.Answered.{latest_requests, IsAnsweredBy};
ghost use Rattle.token_session.specs.Answered.{AgreesWithExchanges, exchanges_of, pending_work_of};
ghost use Rattle.token_session.specs.Answered.{IsAnswered, HasInternalProperties};
ghost use Rattle.token_session.specs.Meters.{SessionState, meters_of, session_of, stepped};
ghost use Rattle.token_session.specs.Noise.{HasTicksForNoise, is_noise_among, is_ignored_or_rejected, is_noise_at, is_noise_after, quiet_from, quiet_sent, tick_at};
ghost use Rattle.hid_packet.specs.Packet.{MAX_STORED_LEN, OUTBOX_CAPACITY};

use authn_core::laws::{
    answers_follow_history as answering_law, rows_follow_history,
    signed_bytes_are_in_the_response as signing_law, signed_bytes_differ,
};
use ctap_message::laws::steps_are_bounded;

/// States that after any history, the machine is in the state that the definitions in specs/ give for the history, and
/// that for each input exactly the packets are sent that the definitions in specs/ give.
pub fn machine_follows_history()
    ensures state { (start : Start) (h : List OneInput) → IsMachineAfter (machine start h) start h }
    ensures packets { (start : Start) (h : List OneInput) (x : OneInput)
        → (turn (machine start h) x).packets ≡ sent_now start h x }
{}

/// States that a machine in the state of a history is, after each further input, in the state of the longer history,
/// and sends the packets of the longer history.
pub fn runs_follow_history()
    ensures state { (s : MachineState) (start : Start) (h xs : List OneInput) → IsMachineAfter s start h
        → IsMachineAfter (run_state s xs) start (append_inputs xs h) }
    ensures packets { (s : MachineState) (start : Start) (n : ℕ) (h xs : List OneInput) → IsMachineAfter s start h
        → run_sent n s xs ≡ sent_from n start h xs }
{}

/// States that the time until the next KEEPALIVE is counted from the last input for which a KEEPALIVE was sent.
pub fn keepalives_count_from_the_last()
    ensures { (start : Start) (h : List OneInput) (x : OneInput) → last_keepalive start (received start (x ∷ h))
        ≡ (if has_keepalive (sent_now start h x) then (received_after start h x).at
        else last_keepalive start (received start h)) }
{}

/// States that after a history and at any later time, at most one message is incomplete, and at most 7550 bytes of it
/// are stored.
pub fn one_message_is_open()
    ensures one { (start : Start) (t : ℕ) (h : List OneInput) → latest_time start (received start h) ≤ t
        → all_open [] (received start h) t ≡ option_to_list (open_at (received start h) t) }
    ensures held { (start : Start) (h : List OneInput) → held start (received start h) ≤ MAX_STORED_LEN }
{}

/// States that a packet with a whole PING or CBOR message on an allocated channel completes the message, if no message
/// is incomplete and no request is pending.
pub fn messages_of_one_packet_finish()
    ensures { (start : Start) (h : List OneInput) (x : OneInput) (p : AnyPacket) (cid cmd : ℕ) (bytes : List ℕ)
        → x.input ≡ PacketCame p → CarriesMessage (p.0 ∷ []) cid cmd bytes
        → (cmd ≡ PING) ⊎ ((cmd ≡ CBOR) × (1 ≤ length bytes)) → 1 ≤ cid → cid ≤ channels_allocated (received start h)
        → open_at (received start h) (received_after start h x).at ≡ None → working_channel (core start (received start h)) ≡ None
        → message_completed_at (received_after start h x) (received start h)
        ≡ Some (record { cid = cid; cmd = cmd; bytes = bytes }) }
{}

/// States that the packets of a PING or CBOR message on an allocated channel, in order and less than 500 ms apart,
/// complete the message with exactly its bytes, whatever packets other hosts send meanwhile. At the first packet, no
/// message may be incomplete and no request pending.
#[tactic(auto, using(crate::proofs::Carrying::several_packets_finish))]
pub fn messages_of_several_packets_finish()
    ensures { (start : Start) (h between : List OneInput) (x y : OneInput) (p q : AnyPacket) (cid cmd : ℕ)
        (bytes : List ℕ) → x.input ≡ PacketCame p → y.input ≡ PacketCame q
        → MessageArrives start h x between (received_after start (append_inputs between (x ∷ h)) y) cid cmd bytes
        → message_completed_at (received_after start (append_inputs between (x ∷ h)) y) (received start (append_inputs between (x ∷ h)))
        ≡ Some (record { cid = cid; cmd = cmd; bytes = bytes }) }
{}

/// States that a complete CBOR message is a request. The authenticator's response is sent on its channel, and no other
/// packet is sent for the request, except those that are sent because time passed. Therefore the response to
/// authenticatorGetInfo is its map with the AAGUID of the start, whatever happened before.
#[tactic(auto, using(crate::proofs::Answered::requests_answered, crate::proofs::Answered::info_is_answered))]
pub fn requests_are_answered()
    ensures request { (start : Start) (h : List OneInput) (x : OneInput) (m : Message)
        → message_completed_at (received_after start h x) (received start h) ≡ Some m → m.cmd ≡ CBOR
        → service_packets start (received_after start h x) (received start h)
        ≡ event_packets (core start (received start h)) (received_after start h x).at (Some (Request m.cid m.bytes)) }
    ensures info { (start : Start) (h : List OneInput) (x : OneInput) (m : Message)
        → message_completed_at (received_after start h x) (received start h) ≡ Some m → m.cmd ≡ CBOR → m.bytes ≡ 0x04 ∷ []
        → service_packets start (received_after start h x) (received start h)
        ≡ message_packets m.cid CBOR (info_answer start.aaguid) }
{}

/// States that the meters are bounded: at most 7550 bytes of an incomplete message are stored, and parsing takes at
/// most four steps for each byte after a command byte, and two more for each request.
pub fn meters_are_bounded()
    ensures held { (start : Start) (h : List OneInput) → (meters_of start (received start h)).held ≤ MAX_STORED_LEN }
    ensures steps { (start : Start) (h : List OneInput) → (meters_of start (received start h)).steps
        ≤ 4 * (meters_of start (received start h)).bytes + 2 * (meters_of start (received start h)).requests }
{
    steps_are_bounded();
}

/// States that at most 130 packets are sent for one input, in any state.
#[tactic(auto, using(crate::proofs::Carrying::turn_few))]
pub fn one_input_sends_few_packets()
    ensures { (s : MachineState) (x : OneInput) → length (turn s x).packets ≤ OUTBOX_CAPACITY }
{}

/// States that the bytes of a completed message are exactly the data of its initialization packet and of the following
/// packets on its channel, up to the packet that completes the message.
#[tactic(auto, using(crate::proofs::Carrying::finished_is_carried))]
pub fn finished_messages_were_received()
    ensures { (start : Start) (h : List OneInput) (x : OneInput) (m : Message) → ArriveWithFullPackets (x ∷ h)
        → message_completed_at (received_after start h x) (received start h) ≡ Some m
        → CarriesMessage (completed_packets_at (received_after start h x) (received start h)) m.cid m.cmd m.bytes }
{}

/// States that an ignored input has the same effect as a tick: the same state and meters follow, and for a tick only
/// those packets are sent that are due because time passed. An input is ignored after a history if it is ignored in the
/// state of the history.
#[tactic(auto, using(crate::proofs::Metering::noise_steps, crate::proofs::Metering::noise_turned_away, crate::proofs::Metering::tick_sends, crate::proofs::Metering::noise_is_named))]
pub fn noise_is_a_tick()
    ensures step { (s : SessionState) (x : OneInput) → is_noise_at s.machine x ≡ true
        → stepped s x ≡ stepped s (tick_at x.at) }
    // An input is ignored if and only if it is a packet that the reply table ignores or rejects with the ERROR packet
    // "invalid channel" or "channel busy", or a reply that the authenticator ignores. A tick isn't.
    ensures answered { (a : Assembly) (core : CoreState) (now : ℕ) (i : Input)
        → is_noise_among a.given a.current core i ≡ is_ignored_or_rejected a core now i }
    ensures packets { (s : MachineState) (at : ℕ) → (turn s (tick_at at)).packets ≡ (time_passed s (max s.now at)).packets }
    ensures named { (s : MachineState) (start : Start) (h : List OneInput) (x : OneInput) → IsMachineAfter s start h
        → is_noise_at s x ≡ is_noise_after start (received_after start h x) (received start h) }
{}

/// States that a history in which ticks replace ignored inputs leads to the same state: channels, incomplete message,
/// authenticator, times and meters. The same packets are sent, except the responses to the replaced inputs. The same is
/// true for further inputs after the two histories.
#[tactic(auto, using(crate::proofs::Metering::quiet_alike, crate::proofs::Metering::quiet_sends, crate::proofs::Metering::quiet_runs))]
pub fn ticks_can_replace_noise()
    ensures session { (start : Start) (h g : List OneInput) → HasTicksForNoise start h g
        → session_of start (received start h) ≡ session_of start (received start g) }
    ensures packets { (start : Start) (h g : List OneInput) → HasTicksForNoise start h g
        → sent start (received start g) ≡ quiet_sent start h g }
    ensures runs { (n : ℕ) (start : Start) (h g xs ys : List OneInput) → HasTicksForNoise start h g
        → HasTicksForNoise start (append_inputs xs h) (append_inputs ys g) → sent_from n start g ys ≡ quiet_from n start h xs ys }
{}

/// States which credentials exist after any history: those of the start and those created later, in order, except the
/// ones removed by a granted reset or a replacement. The signature counter of each is its initial value plus the number
/// of its increments. No two assertions signed by the same credential contain the same signature counter, because the
/// counters increase. While the signature of an assertion is pending, its bytes to sign are the newest.
pub fn credentials_follow_history()
    ensures rows { (start : Start) (h : List OneInput)
        → (core start (received start h)).state.rows ≡ rows_after_changes start.rows
        (changes (first_state start) (steps start (received start h))) }
    ensures lawful { (start : Start) (h : List OneInput) → ValidRows start.capacity start.rows
        → ValidRows start.capacity (core start (received start h)).state.rows }
    ensures signed_assertions { (start : Start) (h : List OneInput) → ValidRows start.capacity start.rows
        → all_differ (signed_assertions (first_state start) (steps start (received start h))) ≡ true }
    ensures rise { (start : Start) (h : List OneInput) → ValidRows start.capacity start.rows
        → counters_increase (signed_assertions (first_state start) (steps start (received start h))) ≡ true }
    ensures newest { (start : Start) (h : List OneInput) (id : List ℕ) → ValidRows start.capacity start.rows
        → signs_by id (core start (received start h)).state.work ≡ true
        → IsNewest (signed_assertions (first_state start) (steps start (received start h))) (core start (received start h)).state }
{
    rows_follow_history();
    signed_bytes_differ();
}

/// States that the signed bytes are those in the response. For an assertion, they consist of the authenticator data,
/// with the RP ID hash, the requested UP flag and the signature counter of the credential, and the client data hash of
/// the newest request. For a registration, they contain the ID and public key that the caller supplied. If UP is set,
/// the user consented since that request. The response is sent on the channel of the request, and contains exactly the
/// authenticator data that was signed.
pub fn signed_bytes_are_in_the_response()
    ensures signed { (start : Start) (h : List OneInput) → ValidRows start.capacity start.rows
        → IsNeeded start.aaguid (latest_requests start (received start h)) (core start (received start h)).state.rows
        (needs (core start (received start h)).state.work) }
    ensures answered { (start : Start) (h : List OneInput) (x : OneInput) (id signed sig : List ℕ)
        → ValidRows start.capacity start.rows → x.input ≡ SignatureCame (Some sig)
        → needs (core start (received start h)).state.work ≡ sign id signed
        → IsAnsweredBy start (received start h) (received_after start h x) id signed sig }
{
    signing_law();
}

/// States that the packets that are sent for a history are determined by the earlier inputs and responses alone,
/// without the authenticator's state. The same is true for its credentials and for the pending request.
pub fn answers_follow_history()
    ensures told { (start : Start) (h : List OneInput) → ValidRows start.capacity start.rows → AgreesWithExchanges start h }
    ensures waits { (start : Start) (h : List OneInput) → ValidRows start.capacity start.rows
        → waiting (core start (received start h)) ≡ pending_work_of (exchanges_of start (received start h)) }
{
    answering_law();
}

/// States the main theorem for the state machine, for every start and every list of inputs; the contract of `drive_new`
/// states it for the code. The credentials at the start must be valid, and packets must have 64 bytes, which the types
/// of this program guarantee.
pub fn every_history_is_answered()
    ensures answered { (start : Start) (h : List OneInput) → ValidRows start.capacity start.rows
        → IsAnswered start h (turns_send start h) }
    ensures bounded { (start : Start) (h : List OneInput) → ValidRows start.capacity start.rows → ArriveWithFullPackets h
        → HasInternalProperties start h }
{
    rows_follow_history();
    steps_are_bounded();
    answers_follow_history();
}
