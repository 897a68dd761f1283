//! Writes a log in its fixed text or its explained text.
ghost use Rattle.std.specs.Prelude.{◌≡◌};
ghost use Rattle.hidlog_c.specs.Commands.{IsWritten};
ghost use Rattle.hidlog_c.specs.Commands.{IsShown, Shows};
ghost use Rattle.session_show.specs.declared.detail.Detail.TheVariants.{Explained as explained, Fixed as fixed};

use crate::buffer_target::BufferTarget;
use crate::outcome::CResult;
use session_log::{LogFault, SliceIn};
use session_show::{Detail, explain, show};

/// Writes the fixed text of the log. After that, the target still writes to the same buffer.
fn play_fixed(log: &[u8], writer: &mut BufferTarget<'_>) -> Result<(), LogFault>
    requires none { writer.old.len ≡ 0 }
    requires unfailed { writer.old.failures ≡ 0 }
    ensures same_reference { writer.new.buffer.ghost_name ≡ writer.old.buffer.ghost_name }
    ensures shown { IsWritten log.now writer.new.buffer.now writer.new.len result (Shows fixed) }
{
    show(&mut SliceIn::new(log), writer)
}

/// Writes the explained text of the log. After that, the target still writes to the same buffer.
fn play_explained(log: &[u8], writer: &mut BufferTarget<'_>) -> Result<(), LogFault>
    requires none { writer.old.len ≡ 0 }
    requires unfailed { writer.old.failures ≡ 0 }
    ensures same_reference { writer.new.buffer.ghost_name ≡ writer.old.buffer.ghost_name }
    ensures shown { IsWritten log.now writer.new.buffer.now writer.new.len result (Shows explained) }
{
    explain(&mut SliceIn::new(log), writer)
}

/// Writes the output of [`show`] or [`explain`] for the log to the start of `out`.
pub fn show_log(detail: Detail, log: &[u8], out: &mut [u8]) -> CResult
    ensures { IsShown detail log.now out.new result }
{
    let mut writer = BufferTarget::new(out);
    let answer = match detail {
        Detail::Fixed => play_fixed(log, &mut writer),
        Detail::Explained => play_explained(log, &mut writer),
    };
    CResult::new(answer, writer.len())
}
