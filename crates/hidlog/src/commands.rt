//! The commands that play a log.
ghost use Rattle.std.specs.Prelude.{◌≡◌, ◌⊎◌, [], None, Some, IfErr, IfOk, IsSomeAnd, MatchOption, OnOk};
ghost use Rattle.session_log.specs.Command.{start_with};
ghost use Rattle.token_session.specs.Meters.{session_of};
ghost use Rattle.hidlog.specs.CommandLine.{named, to_path};
ghost use Rattle.hidlog.specs.Commands.{StartsFromSnapshot, RunsCommand, RunsOn, checked_save_path};
ghost use Rattle.hidlog.specs.Program.{to_result, reasoned, to_fault_text};
ghost use Rattle.hidlog.specs.Program.{CanFail};
ghost use Rattle.hidlog.specs.Program.{cannot_read_log};
ghost use Rattle.hidlog.specs.Commands.{FailsToSave};

use crate::buffered_output::{Output, flush_then};
use crate::fault::ProgramFault;
use crate::files::Files;
use crate::host::{Host, Modeled};
use crate::logs::Logs;
use crate::notes::EndState;
use crate::snapshots::{check_writable, load, lock_snapshot, save_rows};
use session_log::{CAPACITY, ReplayMode, Target};
use token_session::Session;

/// A command that plays a log, with the paths of the snapshots and the log.
#[derive(Clone, Copy)]
pub struct Play<'a> {
    pub command: ReplayMode,
    pub load: Option<&'a str>,
    pub save: Option<&'a str>,
    pub log: Option<&'a str>,
}

/// Opens the log. Returns its path, or `None` for standard input.
pub fn open_log<'a, L: Logs>(
    input: &mut L,
    log: Option<&'a str>,
) -> Result<Option<&'a str>, ProgramFault<'a>>
    ensures path { IfOk result (λ path. to_path path ≡ named (to_path log.entry)) }
    ensures opened { OnOk result (MatchOption (named (to_path log.entry)) (input.new ≡ input.old)
        (λ path. L.opened input.old path input.new)) }
    ensures fails { IfErr result (λ fault. (to_fault_text fault ≡ reasoned 1 cannot_read_log)
        × IsSomeAnd (named (to_path log.entry)) (L.unopenable input.old) × (input.new ≡ input.old)) }
    ensures counted { L.failed input.new ≡ L.failed input.old }
{
    let path = match log {
        Some("-") | None => return Ok(None),
        Some(path) => path,
    };
    match input.open(Some(path)) {
        Ok(()) => Ok(Some(path)),
        Err(error) => Err(ProgramFault::LogOpenError(path, error)),
    }
}

// A session takes 31 kB. Each command creates its session in a separate stack frame, so that the session isn't copied
// and only one session is on the stack at a time.

/// Returns the program's initial session, without credentials.
// This function creates it in the caller's stack frame; calling `Session::bare` there would copy it.
pub fn new_program_session() -> Session<CAPACITY>
    ensures { result ≡ session_of (start_with []) [] }
{
    Session::bare([0; 16], 0)
}

impl<D: Files, L: Logs, O: Output, E: Target> Host<D, L, O, E> {
    /// Plays the open log on a new session, then saves the credentials if there is a path for them, and returns how the
    /// log ended.
    #[inline(never)]
    fn play_open<'a>(
        &mut self,
        play: &Play<'a>,
        log: Option<&str>,
        is_held: bool,
    ) -> Result<EndState, ProgramFault<'a>>
        requires { CanFail ⟦<Self as Modeled>⟧.model self.old }
        ensures { StartsFromSnapshot ⟦<Self as Modeled>⟧.model (to_path play.now.load)
            (λ start. ((self.new ≡ self.old) × FailsToSave D.unwritable self.old.files
            (checked_save_path play.now.command (to_path play.now.save)) (to_result result))
            ⊎ RunsOn ⟦<Self as Modeled>⟧.model play.now.command (to_path play.now.save) (to_result result) self.old self.new start)
            (to_result result) self.old self.new }
    {
        let session = &mut new_program_session();
        if let Err(fault) = load(session, &self.files, play.load) {
            return Err(fault);
        }
        if let Err(fault) = check_writable(&self.files, play.command, play.save, log, is_held) {
            return Err(fault);
        }
        let answer = play
            .command
            .play(session, &mut self.input, &mut self.output);
        if let Err(fault) = flush_then(&mut self.output, answer) {
            return Err(ProgramFault::Log(fault));
        }
        match save_rows(
            &mut self.files,
            self.alloc,
            play.save,
            log,
            is_held,
            session,
        ) {
            Ok(()) => Ok(EndState::of(session)),
            Err(fault) => Err(fault),
        }
    }

    /// Plays the log on a new session, then saves the credentials if there is a path for them, and returns how the log
    /// ended. If the credentials are loaded from and saved to the same path, the snapshot is locked meanwhile.
    pub fn play_log<'a>(&mut self, play: &Play<'a>) -> Result<EndState, ProgramFault<'a>>
        requires { CanFail ⟦<Self as Modeled>⟧.model self.old }
        ensures { RunsCommand ⟦<Self as Modeled>⟧.model play.now.command (to_path play.now.load) (to_path play.now.save)
            (to_path play.now.log) (to_result result) self.old self.new }
    {
        let log = match open_log(&mut self.input, play.log) {
            Ok(log) => log,
            Err(fault) => return Err(fault),
        };
        let held = match lock_snapshot(&self.files, play.load, play.save) {
            Ok(held) => held,
            Err(fault) => return Err(fault),
        };
        let came = self.play_open(play, log, held.is_some());
        drop(held);
        came
    }
}
