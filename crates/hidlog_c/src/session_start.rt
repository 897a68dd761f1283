//! Creating sessions.
ghost use Rattle.std.specs.Prelude.{◌≡◌, ◌≢◌, [], List, IfOk, IfErr, OnOk};
ghost use Rattle.cred_table.specs.declared.row.Row.{Row as AnyRow};
ghost use Rattle.cred_table.specs.Snapshots.{Refuses};
ghost use Rattle.token_session.specs.Meters.{IsStateAfterValidStart, IsStateAfter, session_of};
ghost use Rattle.hidlog_c.specs.Begin.{IsSnapshotOrEmpty};
ghost use Rattle.hidlog_c.specs.Key.{start_of, start_with};

use crate::capacity::CAPACITY;
use authn_core::Config;
use cred_table::{SnapshotFault, Store, Table};
use token_session::Session;

/// Returns a new session with these credentials.
pub fn new_session(aaguid: [u8; 16], start: u64, rows: Store<CAPACITY>) -> Session<CAPACITY>
    ensures { IsStateAfterValidStart result (start_of aaguid start (⟦<Store<CAPACITY> as Table<CAPACITY>>⟧.rows rows)) [] }
{
    Session::new(Config { aaguid }, rows, start)
}

/// Returns a session without credentials, with an AAGUID of zeros, which begins at time 0. The session is created in
/// the caller's stack frame; calling `Session::bare` there would copy the session.
pub fn new_command_session() -> Session<CAPACITY>
    ensures { result ≡ session_of (start_with []) [] }
{
    Session::bare([0; 16], 0)
}

/// Loads the credentials of the snapshot into a new session. An empty snapshot means no credentials.
pub fn open(session: &mut Session<CAPACITY>, snapshot: &[u8]) -> Result<(), SnapshotFault>
    requires fresh { session.old ≡ session_of (start_with []) [] }
    ensures begins { OnOk result ((rows : List AnyRow) × IsSnapshotOrEmpty snapshot.now rows
        × IsStateAfter session.new (start_with rows) []) }
    ensures refused { IfErr result (λ fault. (snapshot.now ≢ []) × Refuses CAPACITY snapshot.now fault) }
{
    if snapshot.is_empty() {
        return Ok(());
    }
    match session.load(Config { aaguid: [0; 16] }, snapshot, 0) {
        Ok(()) => Ok(()),
        Err(fault) => Err(fault),
    }
}
