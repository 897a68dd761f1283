//! The commands in C: the log and the output are in the caller's memory.
ghost use Rattle.std.specs.Prelude.{◌≡◌, [], List, ℕ, take, Option};
ghost use Rattle.cred_table.specs.declared.row.Row.{Row as AnyRow};
ghost use Rattle.token_session.specs.Meters.{IsStateAfter, session_of};
ghost use Rattle.hidlog_c.specs.Commands.{RunsCommand, IsWritten, PlaysSlice};
ghost use Rattle.hidlog_c.specs.Key.{start_with};

use crate::buffer_target::BufferTarget;
use crate::capacity::CAPACITY;
use crate::outcome::CResult;
use crate::session_start::{new_command_session, open};
use session_log::{LogFault, ReplayMode, SliceIn};
use token_session::Session;

/// Processes the lines of the log on the session, and writes the output with `writer`, whose buffer stays the same.
fn play(
    command: ReplayMode,
    session: &mut Session<CAPACITY>,
    log: &[u8],
    writer: &mut BufferTarget<'_>,
) -> Result<(), LogFault>
    requires none { writer.old.len ≡ 0 }
    requires unfailed { writer.old.failures ≡ 0 }
    ensures same_reference { writer.new.buffer.ghost_name ≡ writer.old.buffer.ghost_name }
    ensures does { (rows : List AnyRow) → IsStateAfter session.old (start_with rows) []
        → IsWritten log.now writer.new.buffer.now writer.new.len result (PlaysSlice command rows) }
{
    command.play(session, &mut SliceIn::new(log), writer)
}

/// Plays the log on a session with the credentials of the snapshot, or without credentials if the snapshot is empty.
/// The output is written to the start of `out`. Not inlined, so that its stack frame isn't in use while the session is
/// created.
#[inline(never)]
fn play_on(
    session: &mut Session<CAPACITY>,
    command: ReplayMode,
    log: &[u8],
    snapshot: &[u8],
    out: &mut [u8],
) -> CResult
    requires fresh { session.old ≡ session_of (start_with []) [] }
    ensures { RunsCommand command log.now snapshot.now (out.old, out.new) result }
{
    match open(session, snapshot) {
        Ok(()) => {
            let mut writer = BufferTarget::new(out);
            let answer = play(command, session, log, &mut writer);
            CResult::new(answer, writer.len())
        }
        Err(fault) => CResult::refused(fault),
    }
}

/// Runs a command on a session with the credentials of the snapshot, or without credentials if the snapshot is empty.
/// The output is written to the start of `out`.
pub fn run(command: ReplayMode, log: &[u8], snapshot: &[u8], out: &mut [u8]) -> CResult
    ensures { RunsCommand command log.now snapshot.now (out.old, out.new) result }
{
    play_on(&mut new_command_session(), command, log, snapshot, out)
}
