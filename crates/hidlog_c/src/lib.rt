//! A security key as C functions (hidlog.h): a key that processes one input per call (`calls`), and the commands on
//! session logs, which take a log and a snapshot and return a text and a result. Allocates nothing. The WebAssembly
//! module of the web page has the same source.
#![tactic(auto)]

mod buffer_target;
mod calls;
mod capacity;
mod causes;
mod client;
mod commands;
mod device;
mod fault;
mod key;
mod key_ops;
mod lines;
mod memory;
mod memory_access;
mod messages;
mod outcome;
mod rows;
mod session_start;
mod show;
mod structs;
mod transactions;

ghost use Rattle.session_log.specs.declared.command.ReplayMode.TheVariants as commands;
ghost use Rattle.hidlog_c.specs.Commands.{RunsCommand};
ghost use Rattle.hidlog_c.specs.Commands.{IsShown, detail_for};
ghost use Rattle.session_show.specs.declared.detail.Detail.TheVariants.{Fixed as fixed};
ghost use Rattle.std.specs.Prelude.{◌≡◌, ◌≤◌, ◌==◌, length, not};

use crate::commands::run;
use crate::messages::write_result_message;
use crate::outcome::CResult;
use crate::show::show_log;
use crate::transactions::show_transactions;
use session_log::ReplayMode;
use session_show::Detail;

/// Replays the log on a session with the credentials of the snapshot, or without credentials if the snapshot is empty.
/// The output is written to the start of `out`.
#[unsafe(no_mangle)]
pub extern "C" fn hidlog_replay(log: &[u8], snapshot: &[u8], out: &mut [u8], outcome: &mut CResult)
    ensures { RunsCommand commands.Replay log.now snapshot.now (out.old, out.new) outcome.new }
{
    *outcome = run(ReplayMode::Replay, log, snapshot, out);
}

/// Replays the log, and writes the output to the start of `out`. After the packets of each input line, the output
/// contains what the session needs.
#[unsafe(no_mangle)]
pub extern "C" fn hidlog_live(log: &[u8], snapshot: &[u8], out: &mut [u8], outcome: &mut CResult)
    ensures { RunsCommand commands.Live log.now snapshot.now (out.old, out.new) outcome.new }
{
    *outcome = run(ReplayMode::Live, log, snapshot, out);
}

/// Compares the packets in the log with those that the session sends, and writes the counts to the start of `out`.
#[unsafe(no_mangle)]
pub extern "C" fn hidlog_check(log: &[u8], snapshot: &[u8], out: &mut [u8], outcome: &mut CResult)
    ensures { RunsCommand commands.Check log.now snapshot.now (out.old, out.new) outcome.new }
{
    *outcome = run(ReplayMode::Check, log, snapshot, out);
}

/// Writes the log's inputs and comments, with ticks in place of ignored inputs, to the start of `out`.
#[unsafe(no_mangle)]
pub extern "C" fn hidlog_quiet(log: &[u8], snapshot: &[u8], out: &mut [u8], outcome: &mut CResult)
    ensures { RunsCommand commands.Quiet log.now snapshot.now (out.old, out.new) outcome.new }
{
    *outcome = run(ReplayMode::Quiet, log, snapshot, out);
}

/// Converts a C number to a level of detail. 0 selects the fixed text.
fn detail_for(explain: u32) -> Detail
    ensures { result ≡ detail_for (not (explain == 0)) }
{
    if explain == 0 {
        Detail::Fixed
    } else {
        Detail::Explained
    }
}

/// Writes the fixed text of the log, or the explained text if `explain` isn't 0, to the start of `out`.
#[unsafe(no_mangle)]
pub extern "C" fn hidlog_show(log: &[u8], explain: u32, out: &mut [u8], outcome: &mut CResult)
    ensures { IsShown (detail_for (not (explain == 0))) log.now out.new outcome.new }
{
    *outcome = show_log(detail_for(explain), log, out);
}

/// Writes the transaction of each line and the end of each transaction, in numbers (hidlog.h), to the start of `out`.
#[unsafe(no_mangle)]
pub extern "C" fn hidlog_transactions(log: &[u8], out: &mut [u8], outcome: &mut CResult)
    ensures { IsShown fixed log.now out.new outcome.new }
{
    *outcome = show_transactions(log, out);
}

/// Writes the message for the error in a result, such as `hidlog: line 3: not a log line`, to the start of `out`.
/// Without an error, writes nothing. Returns the number of bytes written.
#[unsafe(no_mangle)]
pub extern "C" fn hidlog_result_message(outcome: &CResult, out: &mut [u8]) -> usize
    ensures { result ≤ length out.new }
{
    write_result_message(outcome, out)
}
