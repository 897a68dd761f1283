//! A session with the packets that it sent and that the caller hasn't taken yet: the state behind a key of the C
//! library.
ghost use Rattle.std.specs.Prelude.{◌≡◌, ◌≤◌, List, Ok, Some, [], IfErr, IfSome, IfNone, OnOk, is_some, length};
ghost use Rattle.authn_core.specs.Views.{needs};
ghost use Rattle.cred_table.specs.declared.row.Row.{Row as AnyRow};
ghost use Rattle.std.specs.List.{find};
ghost use Rattle.cred_table.specs.Rows.{has_id, without};
ghost use Rattle.cred_table.specs.Snapshots.{Loads, Refuses};
ghost use Rattle.hidlog_c.specs.Changed.{Adds, Clears, HasRows, IsBusy, IsIdle, SavesLen, Removes, SavesRows};
ghost use Rattle.hidlog_c.specs.Reports.{ReportsCause};
ghost use Rattle.hidlog_c.specs.Key.{TakesInput, ReadsPacket};
ghost use Rattle.hidlog_c.specs.Commands.{ReplaysLines};
ghost use Rattle.hidlog_c.specs.Key.{IsStarted};
ghost use Rattle.hidlog_c.specs.Reports.{ReportsRow, credential_count, to_c_stats, to_c_need, pending_assertions, waiting_packets};

use crate::capacity::{CAPACITY, SNAPSHOT_MAX_LEN};
use crate::causes::{CauseReport, cause_at, parsed_which, put_sentence, report_of};
use crate::fault::{
    ERR_BUFFER_TOO_SMALL, ERR_BUSY, ERR_DUPLICATE_USER, ERR_FULL, ERR_INVALID_ARGUMENT,
    ERR_NO_PACKET, ERR_PACKETS_QUEUED,
};
use crate::lines::play_lines;
use crate::outcome::CResult;
use crate::rows::to_row;
use crate::session_start::new_session;
use crate::structs::{CNeed, CStats, Credential, to_c_credential, to_c_need, to_c_stats};
use authn_core::{Config, Need};
use cred_table::{SnapshotFault, Store, Table, copy_without, put_new, save_into};
use hid_packet::Outbox;
use std::marker::Model;
use token_session::{Causes, Input, Session};

/// A session, its queued packets, and the causes for which its last input was refused.
#[derive(Drop)]
pub struct Device {
    aaguid: [u8; 16],
    session: Session<CAPACITY>,
    outbox: Outbox,
    causes: Causes,
}

/// No cause: nothing was refused.
const NO_CAUSES: Causes = Causes {
    time: None,
    input: None,
};

// In contracts, a device is its AAGUID, the state of its session, the queued packets, and the causes for which the last
// input was refused.
impl Model for Device {
    ghost use Rattle.hidlog_c.specs.Key.{DeviceState};

    ghost Value = { DeviceState };

    ghost view = { λ d. record { aaguid = d.aaguid; session = d.session; waiting = d.outbox; causes = d.causes } };
}

impl Device {
    /// Returns a device with this AAGUID and without credentials, which powers up at time `at`.
    pub fn bare(aaguid: [u8; 16], at: u64) -> Self
        ensures { IsStarted result aaguid at [] }
    {
        Device {
            aaguid,
            session: new_session(aaguid, at, Store::new()),
            outbox: Outbox::new(),
            causes: NO_CAUSES,
        }
    }

    /// Powers the device up again at time `at`, with the credentials of the snapshot. If the snapshot is rejected,
    /// nothing changes. No packet may be queued.
    pub fn load(&mut self, at: u64, snapshot: &[u8]) -> Result<(), SnapshotFault>
        requires idle { self.old.waiting ≡ [] }
        ensures started { OnOk result ((rows : List AnyRow) × Loads CAPACITY snapshot.now (Ok tt) rows
            × IsStarted self.new self.old.aaguid at rows) }
        ensures refused { IfErr result (Refuses CAPACITY snapshot.now) }
    {
        let config = Config {
            aaguid: self.aaguid,
        };
        self.session.load(config, snapshot, at)?;
        self.causes = NO_CAUSES;
        Ok(())
    }

    /// Processes an input. Returns the number of packets queued for sending. If packets were queued before, returns an
    /// error and doesn't process the input.
    pub fn process_input(&mut self, at: u64, input: Input) -> i32
        ensures { TakesInput (Some self.old) (Some self.new) (record { at = at; input = input }) result }
    {
        if !self.outbox.is_empty() {
            return ERR_PACKETS_QUEUED;
        }
        self.causes = self.session.step(at, input, &mut self.outbox);
        self.outbox.len() as i32
    }

    /// Removes the next queued packet, and copies it to `packet`.
    pub fn next(&mut self, packet: &mut [u8; 64]) -> i32
        ensures { ReadsPacket (Some self.old) (Some self.new) (packet.old, packet.new) result }
    {
        let Some(first) = self.outbox.pop() else {
            return ERR_NO_PACKET;
        };
        let bytes = first.0;
        *packet = bytes;
        self.outbox.len() as i32
    }

    /// Plays lines of a log. If packets are queued, returns an error instead.
    pub fn play(&mut self, log: &[u8], out: &mut [u8], outcome: &mut CResult) -> i32
        ensures { ReplaysLines (Some self.old) (Some self.new) log.now (out.old, out.new) (outcome.old, outcome.new) result }
    {
        if !self.outbox.is_empty() {
            return ERR_PACKETS_QUEUED;
        }
        *outcome = play_lines(&mut self.session, log, out);
        self.causes = NO_CAUSES;
        outcome.status as i32
    }

    /// Stores why the last input was refused (`which` 1), or why a message that timed out before the input was dropped
    /// (`which` 0).
    pub fn cause(&self, which: u32, report: &mut CauseReport, out: &mut [u8]) -> i32
        ensures { ReportsCause (Some self.now) which (report.old, report.new) (out.old, out.new) result }
    {
        let Some(is_input) = parsed_which(which) else {
            return ERR_INVALID_ARGUMENT;
        };
        let Some(cause) = cause_at(&self.causes, is_input) else {
            return 0;
        };
        *report = report_of(cause);
        put_sentence(cause, out) as i32
    }

    /// Returns the number of queued packets.
    pub fn waiting(&self) -> usize
        ensures count { result ≡ waiting_packets self.now }
        ensures limit { result ≤ 130 }
    {
        self.outbox.len()
    }

    /// Returns what the session needs from the caller.
    pub fn need(&self) -> CNeed
        ensures { result ≡ to_c_need (needs self.now.session.machine.core.state.work) }
    {
        to_c_need(self.session.need())
    }

    /// Returns the number of credentials.
    pub fn credentials(&self) -> usize
        ensures count { result ≡ credential_count self.now }
        ensures limit { result ≤ CAPACITY }
    {
        self.session.credentials()
    }

    /// Returns the number of pending assertions.
    pub fn pending(&self) -> usize
        ensures count { result ≡ pending_assertions self.now }
        ensures limit { result ≤ CAPACITY }
    {
        self.session.pending()
    }

    /// Stores the credential at an index. Fails if the index is out of range.
    pub fn credential(&self, place: usize, credential: &mut Credential) -> i32
        ensures { ReportsRow self.now.session.machine.core.state.rows place (credential.old, credential.new) result }
    {
        if place >= self.session.credentials() {
            return ERR_INVALID_ARGUMENT;
        }
        *credential = to_c_credential(self.session.table().row(place));
        0
    }

    /// Returns the session's meters.
    pub fn meters(&self) -> CStats
        ensures { result ≡ to_c_stats self.now.session.meters }
    {
        to_c_stats(self.session.meters())
    }

    /// Returns the error if a new session can't begin: packets are queued, or a request is pending.
    fn busy_error(&self) -> Option<i32>
        ensures busy { IfSome result (λ fault. IsBusy self.now fault) }
        ensures idle { IfNone result (IsIdle self.now) }
    {
        if !self.outbox.is_empty() {
            return Some(ERR_PACKETS_QUEUED);
        }
        match self.session.need() {
            Need::None => None,
            _ => Some(ERR_BUSY),
        }
    }

    /// Begins a new session at time `at` with these credentials. No packet may be queued.
    fn start(&mut self, at: u64, rows: Store<CAPACITY>)
        requires { self.old.waiting ≡ [] }
        ensures { IsStarted self.new self.old.aaguid at (⟦<Store<CAPACITY> as Table<CAPACITY>>⟧.rows rows) }
    {
        self.session = new_session(self.aaguid, at, rows);
        self.causes = NO_CAUSES;
    }

    /// Returns the credentials except the one with this ID, and whether there was one.
    fn rows_without(&self, id: &[u8; 32]) -> (Store<CAPACITY>, bool)
        ensures { (rows : List AnyRow) × HasRows self.now rows
            × (⟦<Store<CAPACITY> as Table<CAPACITY>>⟧.rows result.0 ≡ without id.now rows)
            × (result.1 ≡ is_some (find (has_id id.now) rows)) }
    {
        let table = self.session.table();
        let mut rows = Store::new();
        copy_without(table, id, &mut rows);
        (rows, table.find(id).is_some())
    }

    /// Appends a credential, and begins a new session. An earlier credential with the same ID is removed.
    pub fn add(&mut self, at: u64, credential: &Credential) -> i32
        ensures { Adds (Some self.old) (Some self.new) at credential.now result }
    {
        if let Some(fault) = self.busy_error() {
            return fault;
        }
        let Some(row) = to_row(credential) else {
            return ERR_INVALID_ARGUMENT;
        };
        let (mut rows, _) = self.rows_without(&row.id);
        if rows.len() == CAPACITY {
            return ERR_FULL;
        }
        if !put_new(&mut rows, row) {
            return ERR_DUPLICATE_USER;
        }
        self.start(at, rows);
        0
    }

    /// Removes the credential with this ID, and begins a new session.
    pub fn remove(&mut self, at: u64, id: &[u8; 32]) -> i32
        ensures { Removes (Some self.old) (Some self.new) at id.now result }
    {
        if let Some(fault) = self.busy_error() {
            return fault;
        }
        let (rows, is_there) = self.rows_without(id);
        if !is_there {
            return ERR_INVALID_ARGUMENT;
        }
        self.start(at, rows);
        0
    }

    /// Removes all credentials, and begins a new session.
    pub fn clear(&mut self, at: u64) -> i32
        ensures { Clears (Some self.old) (Some self.new) at result }
    {
        if let Some(fault) = self.busy_error() {
            return fault;
        }
        self.start(at, Store::new());
        0
    }

    /// Writes a snapshot of the credentials to the start of a buffer for the longest snapshot, and returns the
    /// snapshot's length.
    fn save_front(&self, front: &mut [u8]) -> usize
        requires { length front.old ≡ SNAPSHOT_MAX_LEN }
        ensures saved { SavesLen self.now (front.old, front.new) result }
        ensures same_length { length front.new ≡ SNAPSHOT_MAX_LEN }
        ensures limit { result ≤ SNAPSHOT_MAX_LEN }
    {
        save_into(self.session.table(), front).unwrap_or(0)
    }

    /// Writes a snapshot of the credentials to the start of `out`, and returns the snapshot's length.
    pub fn save(&self, out: &mut [u8]) -> i32
        ensures { SavesRows self.now (out.old, out.new) result }
    {
        if out.len() < SNAPSHOT_MAX_LEN {
            return ERR_BUFFER_TOO_SMALL;
        }
        self.save_front(&mut out[..SNAPSHOT_MAX_LEN]) as i32
    }
}
