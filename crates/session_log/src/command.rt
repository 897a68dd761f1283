//! The commands of the program `hidlog` that play a log on a session, with any source and targets.
ghost use Rattle.std.specs.Prelude.{◌≡◌, ◌<◌, ◌-◌, ◌^◌, List};
ghost use Rattle.authn_core.specs.Turn.{Start};
ghost use Rattle.token_session.specs.declared.input.Timed.{Timed as OneInput};
ghost use Rattle.token_session.specs.Meters.{IsStateAfter};
ghost use Rattle.session_log.specs.Lines.{OnlyAppends};
ghost use Rattle.session_log.specs.Command.{PlaysLog, without_meters};

use crate::check_player::check;
use crate::fault::LogFault;
use crate::live_player::live;
use crate::quiet_player::quiet;
use crate::replay_player::replay;
use crate::source::Source;
use crate::target::{Target, put_all};
use arrayvec::ArrayVec;
use std::io::Write;
use token_session::{Meters, Session};

/// Capacity of the program's session: the maximum number of credentials, and of pending assertions.
pub const CAPACITY: usize = 64;

/// Writes an error message and a line feed. The error of a failed write is ignored.
pub fn write_error<E: Target>(faults: &mut E, fault: &LogFault)
    requires { E.failed faults.old < 2 ^ 64 - 1 }
{
    let mut text = ArrayVec::<u8, 96>::new();
    if writeln!(text, "hidlog: {fault}").is_ok() {
        let _ = put_all(faults, text.as_slice());
    }
}

/// Returns the result without the meters.
fn discard_meters(answer: Result<Meters, LogFault>) -> Result<(), LogFault>
    ensures { result ≡ without_meters answer }
{
    match answer {
        Ok(_) => Ok(()),
        Err(fault) => Err(fault),
    }
}

/// A command that plays a log on a session.
#[derive(Clone, Copy, Debug, PartialEq, Eq)]
pub enum ReplayMode {
    /// Writes the log, with the packets that the session sends ([`crate::replay`]).
    Replay,
    /// Like `Replay`, and also writes what the session needs ([`crate::live`]).
    Live,
    /// Compares the packets in the log with those that the session sends ([`crate::check`]).
    Check,
    /// Replaces ignored inputs in the log by ticks ([`crate::quiet`]).
    Quiet,
}

impl ReplayMode {
    /// Runs this command. Not inlined, so that its 30 kB of stack aren't in use while a snapshot is loaded.
    #[inline(never)]
    pub fn play<S: Source, T: Target, const C: usize>(
        self,
        session: &mut Session<C>,
        reader: &mut S,
        writer: &mut T,
    ) -> Result<(), LogFault>
        requires reads { S.failed reader.old < 2 ^ 64 - 1 }
        requires writes { T.failed writer.old < 2 ^ 64 - 1 }
        // For each history that leads to the session's state, the result is the one that the definitions in specs/ give
        // for the history.
        ensures plays { (start : Start) (h : List OneInput) → IsStateAfter session.old start h
            → PlaysLog self start h S.left S.failed S.ended T.taken T.failed result session.new
            (reader.old, reader.new) (writer.old, writer.new) }
        ensures grown { OnlyAppends (T.taken writer.old) (T.taken writer.new) }
    {
        match self {
            ReplayMode::Replay => discard_meters(replay(reader, writer, session)),
            ReplayMode::Live => discard_meters(live(reader, writer, session)),
            ReplayMode::Check => check(reader, writer, session),
            ReplayMode::Quiet => quiet(reader, writer, session),
        }
    }
}
