//! Reading the lines of a log.
ghost use Rattle.std.specs.Prelude.{◌≡◌, ◌<◌, ◌≤◌, ◌-◌, ◌^◌, ℕ, List, [], ◌++◌, length, IfOk, IfErr, MatchBool, MatchOption};
ghost use Rattle.std.specs.Io.KnownBytes.{Consumes};
ghost use Rattle.session_log.specs.Replay.{ending_of, read_fails};
ghost use Rattle.session_log.specs.Lines.{Counts, IsAtEndOfInput};
ghost use Rattle.session_log.specs.Lines.{HasLine, IsUnfinished, Stops};

use crate::fault::LogFault;
use crate::source::Source;
use crate::window::Window;

/// Maximum number of lines of a log.
const MAX_LINES: u64 = 0xFFFF_FFFF;

/// Returns whether the window contains the beginning of a line beyond the maximum number of lines.
fn has_too_many_lines(window: &Window, number: u64) -> bool
    ensures value { MatchBool result
        ((2 ^ 32 ≤ number) × (0 < length window.now))
        (2 ^ 32 ≤ number → window.now ≡ []) }
    ensures fits { length window.now ≤ 256 }
{
    let held = window.len();
    number > MAX_LINES && held > 0
}

/// Reads until the window begins with a complete line, which has the number `number`, and returns its length without
/// the line feed. At the end of the log, returns `None`; the window then contains the last line if it has no line feed,
/// or else is empty. If the window contains a complete line, nothing is read. Otherwise, at most as much is read as
/// fits into the window. Allocates nothing. Fails with [`LogFault::TooManyLines`] if line 2^32 begins, with
/// [`LogFault::TooLong`] at the 256th byte of a line, and with [`LogFault::Read`] if the reader fails, which is not
/// retried. All bytes that were read are in the window. Inlined, because most lines are in the window already, and then
/// a call would take longer than the function's work.
#[inline(always)]
pub fn next_line<S: Source>(
    window: &mut Window,
    reader: &mut S,
    number: u64,
) -> Result<Option<usize>, LogFault>
    requires { S.failed reader.old < 2 ^ 64 - 1 }
    ensures bytes { (more : List ℕ) × (window.new ≡ window.old ++ more)
        × Consumes (S.left reader.old) (S.left reader.new) more }
    ensures found { IfOk result (λ found. MatchOption found
        (IsUnfinished number window.new × IsAtEndOfInput S.left S.ended reader.new)
        (λ end. HasLine number window.new end)) }
    ensures stopped { IfErr result (Stops number window.new) }
    ensures reads { Counts S.failed (reader.old, reader.new) (read_fails (ending_of result)) }
{
    'reading: loop {
        if has_too_many_lines(window, number) {
            return Err(LogFault::TooManyLines);
        }
        if let Some(end) = window.find_newline() {
            return Ok(Some(end));
        }
        if window.is_full() {
            return Err(LogFault::TooLong(number));
        }
        match window.fill(reader) {
            Ok(true) => {}
            Ok(false) => return Ok(None),
            Err(_) => return Err(LogFault::Read(number)),
        }
    }
}
