//! The operations of a key, which return an error if the key is not initialized.
ghost use Rattle.std.specs.Prelude.{◌≡◌, ◌≢◌, [], None, Some, IfErr, OnOk, is_some};
ghost use Rattle.cred_table.specs.Snapshots.{Refuses};
ghost use Rattle.hidlog_c.specs.Reports.{ReportsCause};
ghost use Rattle.hidlog_c.specs.Held.{device_of};
ghost use Rattle.hidlog_c.specs.Changed.{Adds, Clears, Removes, SavesKey};
ghost use Rattle.hidlog_c.specs.Key.{TakesInput, ReadsPacket};
ghost use Rattle.hidlog_c.specs.Key.{refusal_of};
ghost use Rattle.hidlog_c.specs.Commands.{ReplaysLines};
ghost use Rattle.hidlog_c.specs.Key.{Begins};
ghost use Rattle.hidlog_c.specs.Reports.{ReportsCredential, ReportsStats, ReportsNeed, count_or, credential_count, pending_assertions, waiting_packets};

use crate::capacity::CAPACITY;
use crate::causes::CauseReport;
use crate::device::Device;
use crate::fault::{ERR_INVALID_ARGUMENT, ERR_NOT_INITIALIZED};
use crate::key::{KeyHandle, STATE_DESTROYED, STATE_INITIALIZED, STATE_ZERO};
use crate::outcome::CResult;
use crate::structs::{CNeed, CStats, Credential};
use cred_table::SnapshotFault;
use token_session::Input;

impl KeyHandle {
    /// Returns whether the key is initialized.
    pub fn is_initialized(&self) -> bool
        ensures { result ≡ is_some (device_of self.now) }
    {
        self.state == STATE_INITIALIZED
    }

    /// Initializes the key with a device that powers up at time `at`, with the credentials of the snapshot. An empty
    /// snapshot means no credentials. Fails if the key is initialized or the snapshot is rejected. The snapshot is
    /// loaded into the device in place, because moving a device copies it (41 kB with 64 credentials).
    pub fn initialize(
        &mut self,
        aaguid: [u8; 16],
        at: u64,
        snapshot: &[u8],
    ) -> Result<(), SnapshotFault>
        requires { device_of self.old ≡ None }
        ensures made { OnOk result (Begins aaguid at snapshot.now (device_of self.new)) }
        ensures refused { IfErr result (λ fault. (snapshot.now ≢ []) × Refuses CAPACITY snapshot.now fault) }
        ensures unmade { IfErr result (λ _. device_of self.new ≡ None) }
    {
        let device = Device::bare(aaguid, at);
        if self.state == STATE_ZERO {
            self.memory.put(device);
        } else {
            *self.memory.device() = device;
        }
        self.state = STATE_DESTROYED;
        if !snapshot.is_empty() {
            self.memory.device().load(at, snapshot)?;
        }
        self.state = STATE_INITIALIZED;
        Ok(())
    }

    /// Destroys the device.
    pub fn destroy(&mut self)
        ensures { device_of self.new ≡ None }
    {
        if self.state == STATE_INITIALIZED {
            self.state = STATE_DESTROYED;
        }
    }

    /// Processes an input. Returns the number of packets queued for sending. If packets were queued before, returns an
    /// error and doesn't process the input.
    pub fn process_input(&mut self, at: u64, input: Input) -> i32
        ensures { TakesInput (device_of self.old) (device_of self.new) (record { at = at; input = input }) result }
    {
        if !self.is_initialized() {
            return ERR_NOT_INITIALIZED;
        }
        self.memory.device().process_input(at, input)
    }

    /// Returns the error for an invalid argument.
    pub fn refuse(&self) -> i32
        ensures { result ≡ refusal_of (device_of self.now) }
    {
        if self.is_initialized() {
            ERR_INVALID_ARGUMENT
        } else {
            ERR_NOT_INITIALIZED
        }
    }

    /// Removes the next queued packet, and copies it to `packet`.
    pub fn next(&mut self, packet: &mut [u8; 64]) -> i32
        ensures { ReadsPacket (device_of self.old) (device_of self.new) (packet.old, packet.new) result }
    {
        if !self.is_initialized() {
            return ERR_NOT_INITIALIZED;
        }
        self.memory.device().next(packet)
    }

    /// Plays lines of a log. If packets are queued, returns an error instead.
    pub fn play(&mut self, log: &[u8], out: &mut [u8], outcome: &mut CResult) -> i32
        ensures { ReplaysLines (device_of self.old) (device_of self.new) log.now (out.old, out.new) (outcome.old, outcome.new) result }
    {
        if !self.is_initialized() {
            return ERR_NOT_INITIALIZED;
        }
        self.memory.device().play(log, out, outcome)
    }

    /// Stores why the last input was refused, or why a message that timed out before the input was dropped.
    pub fn cause(&mut self, which: u32, report: &mut CauseReport, out: &mut [u8]) -> i32
        ensures same { device_of self.new ≡ device_of self.old }
        ensures cause { ReportsCause (device_of self.old) which (report.old, report.new) (out.old, out.new) result }
    {
        if !self.is_initialized() {
            return ERR_NOT_INITIALIZED;
        }
        self.memory.device().cause(which, report, out)
    }

    /// Returns the number of queued packets.
    pub fn waiting(&mut self) -> i32
        ensures same { device_of self.new ≡ device_of self.old }
        ensures count { result ≡ count_or waiting_packets (device_of self.old) }
    {
        if !self.is_initialized() {
            return ERR_NOT_INITIALIZED;
        }
        self.memory.device().waiting() as i32
    }

    /// Stores what the session needs from the caller, and returns the number of its kind.
    pub fn need(&mut self, need: &mut CNeed) -> i32
        ensures same { device_of self.new ≡ device_of self.old }
        ensures need { ReportsNeed (device_of self.old) (need.old, need.new) result }
    {
        if !self.is_initialized() {
            return ERR_NOT_INITIALIZED;
        }
        *need = self.memory.device().need();
        need.kind as i32
    }

    /// Returns the number of credentials.
    pub fn credentials(&mut self) -> i32
        ensures same { device_of self.new ≡ device_of self.old }
        ensures count { result ≡ count_or credential_count (device_of self.old) }
    {
        if !self.is_initialized() {
            return ERR_NOT_INITIALIZED;
        }
        self.memory.device().credentials() as i32
    }

    /// Returns the number of pending assertions.
    pub fn pending(&mut self) -> i32
        ensures same { device_of self.new ≡ device_of self.old }
        ensures count { result ≡ count_or pending_assertions (device_of self.old) }
    {
        if !self.is_initialized() {
            return ERR_NOT_INITIALIZED;
        }
        self.memory.device().pending() as i32
    }

    /// Stores the credential at an index. Fails if the index is out of range.
    pub fn credential(&mut self, place: usize, credential: &mut Credential) -> i32
        ensures same { device_of self.new ≡ device_of self.old }
        ensures credential { ReportsCredential (device_of self.old) place (credential.old, credential.new) result }
    {
        if !self.is_initialized() {
            return ERR_NOT_INITIALIZED;
        }
        self.memory.device().credential(place, credential)
    }

    /// Stores the meters of the session.
    pub fn meters(&mut self, meters: &mut CStats) -> i32
        ensures same { device_of self.new ≡ device_of self.old }
        ensures meters { ReportsStats (device_of self.old) (meters.old, meters.new) result }
    {
        if !self.is_initialized() {
            return ERR_NOT_INITIALIZED;
        }
        *meters = self.memory.device().meters();
        0
    }

    /// Adds a credential, and begins a new session.
    pub fn add(&mut self, at: u64, credential: &Credential) -> i32
        ensures { Adds (device_of self.old) (device_of self.new) at credential.now result }
    {
        if !self.is_initialized() {
            return ERR_NOT_INITIALIZED;
        }
        self.memory.device().add(at, credential)
    }

    /// Removes the credential with this ID, and begins a new session.
    pub fn remove(&mut self, at: u64, id: &[u8; 32]) -> i32
        ensures { Removes (device_of self.old) (device_of self.new) at id.now result }
    {
        if !self.is_initialized() {
            return ERR_NOT_INITIALIZED;
        }
        self.memory.device().remove(at, id)
    }

    /// Removes all credentials, and begins a new session.
    pub fn clear(&mut self, at: u64) -> i32
        ensures { Clears (device_of self.old) (device_of self.new) at result }
    {
        if !self.is_initialized() {
            return ERR_NOT_INITIALIZED;
        }
        self.memory.device().clear(at)
    }

    /// Writes a snapshot of the credentials, and returns the snapshot's length.
    pub fn save(&mut self, out: &mut [u8]) -> i32
        ensures same { device_of self.new ≡ device_of self.old }
        ensures saves { SavesKey (device_of self.old) (out.old, out.new) result }
    {
        if !self.is_initialized() {
            return ERR_NOT_INITIALIZED;
        }
        self.memory.device().save(out)
    }
}
