//! Writes the transactions of a log in numbers.
ghost use Rattle.std.specs.Prelude.{◌≡◌};
ghost use Rattle.hidlog_c.specs.Commands.{IsWritten};
ghost use Rattle.hidlog_c.specs.Commands.{IsShown, Shows};
ghost use Rattle.session_show.specs.declared.detail.Detail.TheVariants.{Fixed as fixed};

use crate::buffer_target::BufferTarget;
use crate::outcome::CResult;
use session_log::{LogFault, SliceIn};
use session_show::write_transactions;

/// Writes the transaction of each line. After that, the target still writes to the same buffer.
fn play_transactions(log: &[u8], writer: &mut BufferTarget<'_>) -> Result<(), LogFault>
    requires none { writer.old.len ≡ 0 }
    requires unfailed { writer.old.failures ≡ 0 }
    ensures same_reference { writer.new.buffer.ghost_name ≡ writer.old.buffer.ghost_name }
    ensures shown { IsWritten log.now writer.new.buffer.now writer.new.len result (Shows fixed) }
{
    write_transactions(&mut SliceIn::new(log), writer)
}

/// Writes the output of [`write_transactions`] for the log to the start of `out`.
pub fn show_transactions(log: &[u8], out: &mut [u8]) -> CResult
    ensures { IsShown fixed log.now out.new result }
{
    let mut writer = BufferTarget::new(out);
    let answer = play_transactions(log, &mut writer);
    CResult::new(answer, writer.len())
}
