//! The messages for errors.
ghost use Rattle.std.specs.Prelude.{◌≡◌, ◌≤◌, ℕ, Some, Err, length};
ghost use Rattle.session_log.specs.declared.fault.LogFault.{LogFault as AnyFault};
ghost use Rattle.hidlog_c.specs.Commands.{to_c_result};

use crate::outcome::CResult;
use arrayvec::ArrayVec;
use session_log::LogFault;
use std::io::Write;

/// Returns the log error with the numbers of a result, if any.
fn fault_in(outcome: &CResult) -> Option<LogFault>
    ensures { (fault : AnyFault) (written : ℕ) → outcome.now ≡ to_c_result {A = Unit {0}} (Err fault) written → result ≡ Some fault }
{
    let line = outcome.line;
    match (outcome.status, outcome.fault) {
        (1, 1) => Some(LogFault::BadLine(line)),
        (1, 2) => Some(LogFault::TooLong(line)),
        (1, 3) => Some(LogFault::Differs {
            line,
            packet: outcome.packet,
        }),
        (1, 4) => Some(LogFault::Read(line)),
        (1, 5) => Some(LogFault::Write),
        (1, 6) => Some(LogFault::TooManyLines),
        (1, 7) => Some(LogFault::Memory(line)),
        _ => None,
    }
}

/// Returns the message for the number of a snapshot error. For other numbers, it is empty.
fn refusal(number: u32) -> &'static [u8] {
    match number {
        1 => b"hidlog: snapshot refused: 1\n",
        2 => b"hidlog: snapshot refused: 2\n",
        3 => b"hidlog: snapshot refused: 3\n",
        _ => b"",
    }
}

/// Writes the message for a result to the start of `out`, truncated if it doesn't fit. For success, writes nothing.
/// Returns the number of bytes written.
pub fn write_result_message(outcome: &CResult, out: &mut [u8]) -> usize
    ensures { result ≤ length out.new }
{
    let mut text = ArrayVec::<u8, 96>::new();
    match fault_in(outcome) {
        Some(fault) => {
            let _ = writeln!(text, "hidlog: {fault}");
        }
        None if outcome.status == 2 => {
            let _ = text.try_extend_from_slice(refusal(outcome.fault));
        }
        None => {}
    }
    let n = text.len().min(out.len());
    out[..n].copy_from_slice(&text.as_slice()[..n]);
    n
}
