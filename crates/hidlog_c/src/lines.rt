//! Playing lines of a log on the session of a key.
ghost use Rattle.std.specs.Prelude.{◌≡◌, [], take, Option};
ghost use Rattle.hidlog_c.specs.Commands.{IsWritten};
ghost use Rattle.hidlog_c.specs.Commands.{ArePlayed, FollowsLines, PlaysLines};

use crate::buffer_target::BufferTarget;
use crate::capacity::CAPACITY;
use crate::outcome::CResult;
use session_log::{LogFault, SliceIn, process_live_lines};
use token_session::Session;

/// Processes the lines of the log on the session, and writes the output with `writer`, whose buffer stays the same.
fn play(
    session: &mut Session<CAPACITY>,
    log: &[u8],
    writer: &mut BufferTarget<'_>,
) -> Result<(), LogFault>
    requires none { writer.old.len ≡ 0 }
    requires unfailed { writer.old.failures ≡ 0 }
    ensures same_reference { writer.new.buffer.ghost_name ≡ writer.old.buffer.ghost_name }
    ensures does { IsWritten log.now writer.new.buffer.now writer.new.len result (PlaysLines session.old session.new) }
    ensures history { FollowsLines session.old session.new log.now writer.new.buffer.now writer.new.len result }
{
    process_live_lines(&mut SliceIn::new(log), writer, session)
}

/// Processes the lines of the log on the session, and writes the output of [`process_live_lines`] to the start of
/// `out`.
pub fn play_lines(session: &mut Session<CAPACITY>, log: &[u8], out: &mut [u8]) -> CResult
    ensures { ArePlayed session.old session.new log.now out.new result }
{
    let mut writer = BufferTarget::new(out);
    let answer = play(session, log, &mut writer);
    CResult::new(answer, writer.len())
}
