//! The C functions that take a key (hidlog.h). Each function returns its result. An error is a result below 0
//! (fault.rt), after which the key is unchanged.
ghost use Rattle.std.specs.Prelude.{◌≡◌, None, Some, option_map};
ghost use Rattle.token_session.specs.declared.input.Input.TheVariants as inputs;
ghost use prog.Memory.{capped, size};
ghost use denote.Param.{layout};
ghost use Rattle.hidlog_c.specs.contracts.device.Device.{the_row as device_row};
ghost use Rattle.hidlog_c.specs.Reports.{ReportsCause};
ghost use Rattle.hidlog_c.specs.Held.{device_of};
ghost use Rattle.hidlog_c.specs.Changed.{Adds, Clears, Removes, SavesKey};
ghost use Rattle.hidlog_c.specs.Key.{TakesInput, ReadsPacket};
ghost use Rattle.hidlog_c.specs.Key.{TakesCheckedInput, parsed_presence_number, signature_input};
ghost use Rattle.hidlog_c.specs.Commands.{ReplaysLines};
ghost use Rattle.hidlog_c.specs.Reports.{ReportsCredential, ReportsStats, ReportsNeed, count_or, credential_count, pending_assertions, waiting_packets};
ghost use Rattle.hidlog_c.specs.Key.{Initializes};

use crate::capacity::CAPACITY;
use crate::causes::CauseReport;
use crate::device::Device;
use crate::fault::{
    ERR_ALREADY_INITIALIZED, ERR_BAD_CREDENTIAL, ERR_FULL, ERR_NOT_A_SNAPSHOT, ERR_NOT_INITIALIZED,
    NO_MEMORY,
};
use crate::key::KeyHandle;
use crate::outcome::CResult;
use crate::structs::{CNeed, CStats, Credential};
use authn_core::{NewKey, Presence, Signature};
use cred_table::SnapshotFault;
use hid_packet::Packet;
use token_session::Input;

/// Converts a number of enum hidlog_presence to a user presence reply. Returns `None` for other numbers.
fn parsed_presence_number(presence: u32) -> Option<Presence>
    ensures { result ≡ parsed_presence_number presence }
{
    match presence {
        0 => Some(Presence::Granted),
        1 => Some(Presence::Denied),
        2 => Some(Presence::TimedOut),
        _ => None,
    }
}

/// Returns the size of a key in bytes.
#[unsafe(no_mangle)]
pub extern "C" fn hidlog_key_size() -> usize
    ensures { result ≡ capped (size (layout device_row)) }
{
    std::mem::size_of::<Device>()
}

/// Returns the maximum number of credentials of a key.
#[unsafe(no_mangle)]
pub extern "C" fn hidlog_key_capacity() -> usize
    ensures { result ≡ CAPACITY }
{
    CAPACITY
}

/// Initializes a key that powers up at time `at`, with the credentials of the snapshot. An empty snapshot means no
/// credentials.
#[unsafe(no_mangle)]
pub extern "C" fn hidlog_key_init(
    key: &mut KeyHandle,
    aaguid: &[u8; 16],
    at: u64,
    snapshot: &[u8],
) -> i32
    ensures { Initializes (device_of key.old) (device_of key.new) aaguid.now at snapshot.now result }
{
    if key.is_initialized() {
        return ERR_ALREADY_INITIALIZED;
    }
    match key.initialize(*aaguid, at, snapshot) {
        Ok(()) => 0,
        Err(SnapshotFault::NotSnapshot) => ERR_NOT_A_SNAPSHOT,
        Err(SnapshotFault::TooMany) => ERR_FULL,
        Err(SnapshotFault::RowBroken(_)) => ERR_BAD_CREDENTIAL,
        Err(SnapshotFault::Memory) => NO_MEMORY,
    }
}

/// Advances the time to `at`, in milliseconds. Returns the number of packets that are queued for sending.
#[unsafe(no_mangle)]
pub extern "C" fn hidlog_key_tick(key: &mut KeyHandle, at: u64) -> i32
    ensures { TakesInput (device_of key.old) (device_of key.new) (record { at = at; input = inputs.Tick }) result }
{
    key.process_input(at, Input::Tick)
}

/// Processes a packet from the host at time `at`, in milliseconds. Returns the number of packets that are queued for
/// sending.
#[unsafe(no_mangle)]
pub extern "C" fn hidlog_key_write_packet(key: &mut KeyHandle, at: u64, packet: &[u8; 64]) -> i32
    ensures { TakesInput (device_of key.old) (device_of key.new)
        (record { at = at; input = inputs.Packet (record { 0 = packet.now }) }) result }
{
    key.process_input(at, Input::Packet(Packet(*packet)))
}

/// Removes the next queued packet, and copies it to `packet`. Returns the number of packets that remain.
#[unsafe(no_mangle)]
pub extern "C" fn hidlog_key_read_packet(key: &mut KeyHandle, packet: &mut [u8; 64]) -> i32
    ensures { ReadsPacket (device_of key.old) (device_of key.new) (packet.old, packet.new) result }
{
    key.next(packet)
}

/// Provides the user presence reply: 0 granted, 1 denied, 2 timed out.
#[unsafe(no_mangle)]
pub extern "C" fn hidlog_key_provide_presence(key: &mut KeyHandle, at: u64, presence: u32) -> i32
    ensures { TakesCheckedInput (device_of key.old) (device_of key.new) at (option_map inputs.Presence (parsed_presence_number presence)) result }
{
    match parsed_presence_number(presence) {
        Some(presence) => key.process_input(at, Input::Presence(presence)),
        None => key.refuse(),
    }
}

/// Provides a key pair for a new credential: the credential ID and the coordinates of the public key.
#[unsafe(no_mangle)]
pub extern "C" fn hidlog_key_provide_key_pair(
    key: &mut KeyHandle,
    at: u64,
    id: &[u8; 32],
    x: &[u8; 32],
    y: &[u8; 32],
) -> i32
    ensures { TakesInput (device_of key.old) (device_of key.new)
        (record { at = at; input = inputs.Key (Some (record { id = id.now; x = x.now; y = y.now })) }) result }
{
    let new_key = NewKey {
        id: *id,
        x: *x,
        y: *y,
    };
    key.process_input(at, Input::Key(Some(new_key)))
}

/// Refuses a key pair.
#[unsafe(no_mangle)]
pub extern "C" fn hidlog_key_refuse_key_pair(key: &mut KeyHandle, at: u64) -> i32
    ensures { TakesInput (device_of key.old) (device_of key.new) (record { at = at; input = inputs.Key None }) result }
{
    key.process_input(at, Input::Key(None))
}

/// Provides a signature (DER, 1 to 72 bytes) over the bytes to sign.
#[unsafe(no_mangle)]
pub extern "C" fn hidlog_key_provide_signature(
    key: &mut KeyHandle,
    at: u64,
    signature: &[u8],
) -> i32
    ensures { TakesCheckedInput (device_of key.old) (device_of key.new) at (signature_input signature.now) result }
{
    match Signature::new(signature) {
        Some(signature) => key.process_input(at, Input::Signature(Some(signature))),
        None => key.refuse(),
    }
}

/// Refuses a signature.
#[unsafe(no_mangle)]
pub extern "C" fn hidlog_key_refuse_signature(key: &mut KeyHandle, at: u64) -> i32
    ensures { TakesInput (device_of key.old) (device_of key.new) (record { at = at; input = inputs.Signature None }) result }
{
    key.process_input(at, Input::Signature(None))
}

/// Plays lines of a log, and writes the output of `live` for these lines to the start of `out`.
#[unsafe(no_mangle)]
pub extern "C" fn hidlog_key_replay_lines(
    key: &mut KeyHandle,
    log: &[u8],
    out: &mut [u8],
    outcome: &mut CResult,
) -> i32
    ensures { ReplaysLines (device_of key.old) (device_of key.new) log.now (out.old, out.new) (outcome.old, outcome.new) result }
{
    key.play(log, out, outcome)
}

/// Returns the number of queued packets.
#[unsafe(no_mangle)]
pub extern "C" fn hidlog_key_queued_packets(key: &mut KeyHandle) -> i32
    ensures same { device_of key.new ≡ device_of key.old }
    ensures count { result ≡ count_or waiting_packets (device_of key.old) }
{
    key.waiting()
}

/// Stores what the key needs from its caller, and returns the number of its kind.
#[unsafe(no_mangle)]
pub extern "C" fn hidlog_key_get_need(key: &mut KeyHandle, need: &mut CNeed) -> i32
    ensures same { device_of key.new ≡ device_of key.old }
    ensures need { ReportsNeed (device_of key.old) (need.old, need.new) result }
{
    key.need(need)
}

/// Stores why the key refused its last input, as numbers in `report` and as a sentence in UTF-8 at the start of `out`.
/// With `which` 1, this is the cause for the input; with 0, the cause for a message that timed out before the input.
/// Returns the number of bytes written, or 0 if nothing was refused.
#[unsafe(no_mangle)]
pub extern "C" fn hidlog_key_cause(
    key: &mut KeyHandle,
    which: u32,
    cause: &mut CauseReport,
    out: &mut [u8],
) -> i32
    ensures same { device_of key.new ≡ device_of key.old }
    ensures cause { ReportsCause (device_of key.old) which (cause.old, cause.new) (out.old, out.new) result }
{
    key.cause(which, cause, out)
}

/// Returns the number of credentials.
#[unsafe(no_mangle)]
pub extern "C" fn hidlog_key_credential_count(key: &mut KeyHandle) -> i32
    ensures same { device_of key.new ≡ device_of key.old }
    ensures count { result ≡ count_or credential_count (device_of key.old) }
{
    key.credentials()
}

/// Stores the credential at an index. Credentials are in order of creation, and indices begin at 0.
#[unsafe(no_mangle)]
pub extern "C" fn hidlog_key_get_credential(
    key: &mut KeyHandle,
    place: usize,
    credential: &mut Credential,
) -> i32
    ensures same { device_of key.new ≡ device_of key.old }
    ensures credential { ReportsCredential (device_of key.old) place (credential.old, credential.new) result }
{
    key.credential(place, credential)
}

/// Returns the number of assertions pending for authenticatorGetNextAssertion.
#[unsafe(no_mangle)]
pub extern "C" fn hidlog_key_pending_assertions(key: &mut KeyHandle) -> i32
    ensures same { device_of key.new ≡ device_of key.old }
    ensures count { result ≡ count_or pending_assertions (device_of key.old) }
{
    key.pending()
}

/// Stores the statistics of the session.
#[unsafe(no_mangle)]
pub extern "C" fn hidlog_key_get_stats(key: &mut KeyHandle, meters: &mut CStats) -> i32
    ensures same { device_of key.new ≡ device_of key.old }
    ensures meters { ReportsStats (device_of key.old) (meters.old, meters.new) result }
{
    key.meters(meters)
}

/// Appends a credential. An earlier credential with the same ID is removed. Begins a new session at time `at`.
#[unsafe(no_mangle)]
pub extern "C" fn hidlog_key_add_credential(
    key: &mut KeyHandle,
    at: u64,
    credential: &Credential,
) -> i32
    ensures { Adds (device_of key.old) (device_of key.new) at credential.now result }
{
    key.add(at, credential)
}

/// Removes the credential with this ID. Begins a new session at time `at`.
#[unsafe(no_mangle)]
pub extern "C" fn hidlog_key_remove_credential(key: &mut KeyHandle, at: u64, id: &[u8; 32]) -> i32
    ensures { Removes (device_of key.old) (device_of key.new) at id.now result }
{
    key.remove(at, id)
}

/// Removes all credentials. Begins a new session at time `at`.
#[unsafe(no_mangle)]
pub extern "C" fn hidlog_key_clear_credentials(key: &mut KeyHandle, at: u64) -> i32
    ensures { Clears (device_of key.old) (device_of key.new) at result }
{
    key.clear(at)
}

/// Writes a snapshot of the credentials to the start of `out`, and returns the snapshot's length.
#[unsafe(no_mangle)]
pub extern "C" fn hidlog_key_save_snapshot(key: &mut KeyHandle, out: &mut [u8]) -> i32
    ensures same { device_of key.new ≡ device_of key.old }
    ensures saves { SavesKey (device_of key.old) (out.old, out.new) result }
{
    key.save(out)
}

/// Destroys the key. The caller may use its memory again.
#[unsafe(no_mangle)]
pub extern "C" fn hidlog_key_destroy(key: &mut KeyHandle) -> i32
    ensures none { device_of key.new ≡ None }
    ensures made { result ≡ count_or (λ d. 0) (device_of key.old) }
{
    if !key.is_initialized() {
        return ERR_NOT_INITIALIZED;
    }
    key.destroy();
    0
}
