//! The program on the streams of a caller, or on those of its process.
ghost use Rattle.std.specs.Prelude.{◌≡◌, ◌<◌, ◌-◌, ◌^◌, ◌⊎◌, IfErr};
ghost use Rattle.hidlog.specs.CommandLine.{to_texts};
ghost use Rattle.hidlog.specs.Commands.{PlaysOver};

use crate::buffered_output::{BufferedOutput, Lookahead, Output};
use crate::caller_streams::{CallerStream, Unbuffered};
use crate::disk::{Disk, HostDisk};
use crate::escape::StreamFailure;
use crate::files::{Files, HostFiles};
use crate::host::{Host, Modeled, TerminalFlags};
use crate::logs::{HostLog, Logs, ProcessLog, ProgressMode};
use crate::process::{no_memory, program_args, write_message};
use crate::program::RunOutcome;
use crate::remember_error::RememberError;
use crate::terminal::terminal_info;
use crate::terminal_output::Screen;
use session_log::{Source, Target, ToWrite};
use std::cell::Cell;
use std::io::{self, Printer, Stderr};
use std::process::ExitCode;

/// The environment of the program on the streams of a caller.
type CallerHost<'a, S, O, E> = Host<
    HostFiles<HostDisk<'a>>,
    HostLog<'a, CallerStream<S>>,
    Unbuffered<O>,
    E,
>;

/// Runs the program on the streams of a caller: `input` is standard input, and error messages are written to `faults`.
/// The arguments begin with the program's name. Snapshots, and logs with a path, are files of the system.
///
/// The exit status is 0 for `Ok`, or else the error: 1 for an error in the log or a log that can't be opened, and 2 for
/// invalid arguments, a snapshot that can't be used, or a failed allocation outside the log. The exit status doesn't
/// depend on whether the error message can be written.
pub fn run<'a, S: Source + Drop, O: Target + Drop, E: Target + Drop>(
    rt: &'a HostRuntime,
    words: &[&str],
    input: S,
    output: O,
    faults: E,
) -> Result<(), u8>
    requires output { O.failed output < 2 ^ 64 - 1 }
    requires faults { E.failed faults < 2 ^ 64 - 1 }
    ensures status { IfErr result (λ code. (code ≡ 1) ⊎ (code ≡ 2)) }
    ensures plays { PlaysOver (record {
      holds = ⟦<HostFiles<HostDisk<'a>> as Files>⟧.holds;
      unreadable = ⟦<HostFiles<HostDisk<'a>> as Files>⟧.unreadable;
      written = ⟦<HostFiles<HostDisk<'a>> as Files>⟧.written;
      unwritten = ⟦<HostFiles<HostDisk<'a>> as Files>⟧.unwritten;
      unwritable = ⟦<HostFiles<HostDisk<'a>> as Files>⟧.unwritable;
      opened = ⟦<HostLog<'a, CallerStream<S>> as Logs>⟧.opened;
      unopenable = ⟦<HostLog<'a, CallerStream<S>> as Logs>⟧.unopenable;
      left = ⟦<HostLog<'a, CallerStream<S>> as Source>⟧.left;
      unread = ⟦<HostLog<'a, CallerStream<S>> as Source>⟧.failed;
      ended = ⟦<HostLog<'a, CallerStream<S>> as Source>⟧.ended;
      taken = ⟦<Unbuffered<O> as Target>⟧.taken;
      unput = ⟦<Unbuffered<O> as Target>⟧.failed;
      waits = ⟦<Unbuffered<O> as Output>⟧.waits;
      parsed = E.taken;
      unsaid = E.failed;
    }) (S.left input) (O.taken output) faults (to_texts words.now) result }
{
    let alloc = rt.alloc();
    let ahead = Cell::new(Lookahead::Nothing);
    let mut faults = faults;
    let stream = CallerStream::Source(input);
    let Ok(input) = HostLog::from_stream(rt, stream, None, false, ProgressMode::default(), &ahead)
    else {
        return Err(no_memory(&mut faults));
    };
    let mut host = Host {
        files: HostFiles(HostDisk(rt), alloc),
        input,
        output: Unbuffered(output),
        faults,
        alloc,
        terminals: TerminalFlags {
            output: false,
            faults: false,
        },
        width: None,
    };
    host.play(words).status
}

/// Runs the program on the streams and files of its process.
fn run_in_process<'a>(
    rt: &HostRuntime,
    words: &'a [&'a str],
    writer: &mut RememberError<Printer<'_, HostRuntime>>,
    errors: &mut RememberError<Stderr>,
) -> RunOutcome<'a> {
    let alloc = rt.alloc();
    let around = terminal_info(rt, words);
    let ahead = Cell::new(Lookahead::Nothing);
    let mut faults = ToWrite::new(errors);
    let Ok(input) = ProcessLog::new(rt, around.is_check, around.progress_mode, &ahead) else {
        return RunOutcome::of(Err(no_memory(&mut faults)), false);
    };
    let screen = Screen {
        inner: ToWrite::new(writer),
        style: around.style,
        line: Vec::new(alloc),
    };
    let mut host = Host {
        files: HostFiles(HostDisk(rt), alloc),
        input,
        output: BufferedOutput {
            inner: screen,
            ahead: &ahead,
            flush_policy: around.flush_policy,
            bytes: Vec::new(alloc),
            at: 0,
        },
        faults,
        alloc,
        terminals: around.terminals,
        width: around.width,
    };
    host.play(words)
}

/// Runs the program with the arguments and streams of its process. If texts are explained, also reports why a write to
/// the output failed.
pub fn run_process(rt: &HostRuntime) -> ExitCode {
    let mut errors = RememberError {
        inner: rt.stderr(),
        failure: None,
    };
    let mut faults = ToWrite::new(&mut errors);
    let texts = match program_args(rt, &mut faults) {
        Ok(texts) => texts,
        Err(status) => return ExitCode::from(status),
    };
    let mut words = Vec::new(rt.alloc());
    for text in texts.as_slice() {
        if words.push(text.as_str()).is_err() {
            return ExitCode::from(no_memory(&mut faults));
        }
    }
    let mut writer = RememberError {
        inner: io::writer(rt),
        failure: None,
    };
    let outcome = run_in_process(rt, words.as_slice(), &mut writer, &mut errors);
    if outcome.explains
        && errors.failure.is_none()
        && let Some(error) = &writer.failure
    {
        let name = Some("standard output");
        let failure = StreamFailure { name, error };
        write_message(&mut ToWrite::new(&mut errors), &failure);
    }
    match outcome.status {
        Ok(()) => ExitCode::SUCCESS,
        Err(status) => ExitCode::from(status),
    }
}
