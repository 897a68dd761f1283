//! Loading the credentials of a session from a snapshot, and saving them.
ghost use Rattle.std.specs.Prelude.{◌≡◌, [], List, IfErr, OnOk};
ghost use Rattle.cred_table.specs.declared.row.Row.{Row as AnyRow};
ghost use Rattle.token_session.specs.Meters.{IsStateAfter, session_of};
ghost use Rattle.hidlog.specs.CommandLine.{to_path};
ghost use Rattle.hidlog.specs.Commands.{checked_save_path};
ghost use Rattle.hidlog.specs.Program.{to_result, to_fault_text};
ghost use Rattle.session_log.specs.Command.{start_with};
ghost use Rattle.hidlog.specs.Commands.{FailsToOpen, FailsToSave, OpenSource, Saves};

use crate::fault::ProgramFault;
use crate::files::{Files, SaveError};
use authn_core::Config;
use cred_table::save;
use session_log::{CAPACITY, ReplayMode};
use std::alloc::Global;
use std::io::ErrorKind;
use token_session::Session;

/// Loads the credentials of the snapshot at the path, if any, into a new session with an AAGUID of zeros at time 0.
#[inline(never)]
pub fn load<'a, D: Files>(
    session: &mut Session<CAPACITY>,
    files: &D,
    path: Option<&'a str>,
) -> Result<(), ProgramFault<'a>>
    requires fresh { session.old ≡ session_of (start_with []) [] }
    ensures begins { OnOk result ((rows : List AnyRow) × OpenSource D.holds files.now (to_path path.entry) rows
        × IsStateAfter session.new (start_with rows) []) }
    ensures fails { IfErr result (λ fault. FailsToOpen D.holds D.unreadable files.now (to_path path.entry) (Err (to_fault_text fault))) }
{
    let Some(path) = path else {
        return Ok(());
    };
    let bytes = match files.read(path) {
        Ok(bytes) => bytes,
        Err(error) => {
            if error.kind() == ErrorKind::OutOfMemory {
                return Err(ProgramFault::Memory);
            }
            return Err(ProgramFault::SnapshotReadError(path, error));
        }
    };
    match session.load(Config { aaguid: [0; 16] }, &bytes, 0) {
        Ok(()) => Ok(()),
        Err(fault) => Err(ProgramFault::RefusedSnapshot(path, fault, bytes)),
    }
}

/// Locks the snapshot at the path until the result is dropped, if it is both loaded and saved to. So if two programs do
/// this at the same time, neither overwrites what the other one saved.
pub fn lock_snapshot<'a, D: Files>(
    files: &D,
    path: Option<&'a str>,
    save: Option<&str>,
) -> Result<Option<D::Lock>, ProgramFault<'a>>
    ensures { IfErr result (λ fault. FailsToOpen D.holds D.unreadable files.now (to_path path.entry) (Err (to_fault_text fault))) }
{
    let (Some(path), Some(save)) = (path, save) else {
        return Ok(None);
    };
    match files.lock_input(path, save) {
        Ok(held) => Ok(held),
        Err(error) => Err(ProgramFault::SnapshotReadError(path, error)),
    }
}

/// Checks whether a snapshot can be written to the path, if any. Only `live` does this, because its log may arrive
/// slowly.
pub fn check_writable<'a, D: Files>(
    files: &D,
    command: ReplayMode,
    path: Option<&'a str>,
    log: Option<&str>,
    is_held: bool,
) -> Result<(), ProgramFault<'a>>
    ensures { IfErr result (λ fault.
        FailsToSave D.unwritable files.now (checked_save_path command (to_path path.entry)) (Err (to_fault_text fault))) }
{
    let (ReplayMode::Live, Some(path)) = (command, path) else {
        return Ok(());
    };
    match files.check_writable(path, log, is_held) {
        Ok(()) => Ok(()),
        Err(error) => Err(ProgramFault::SnapshotWriteError(path, SaveError::Kept(error))),
    }
}

/// Writes a snapshot of the session's credentials to the path, if any.
pub fn save_rows<'a, D: Files>(
    files: &mut D,
    alloc: Global,
    path: Option<&'a str>,
    log: Option<&str>,
    is_held: bool,
    session: &Session<CAPACITY>,
) -> Result<(), ProgramFault<'a>>
    ensures { Saves D.written D.unwritten (to_path path.entry) session.now (to_result result) (files.old, files.new) }
{
    let Some(path) = path else {
        return Ok(());
    };
    let mut bytes = Vec::new(alloc);
    if save(session.table(), &mut bytes).is_err() {
        return Err(ProgramFault::Memory);
    }
    match files.write(path, bytes.as_slice(), log, is_held) {
        Ok(()) => Ok(()),
        Err(unwritten) => Err(ProgramFault::SnapshotWriteError(path, unwritten)),
    }
}
