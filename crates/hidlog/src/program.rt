//! The program, with any implementation of files, log, output and error stream.
ghost use Rattle.std.specs.Prelude.{◌≡◌, ◌<◌, ◌-◌, ◌^◌, ◌⊎◌, ◌∷◌, ℕ, List, [], false, true, None, Some, Result, IfErr, OnOk, codes};
ghost use Rattle.clap.specs.Words.{kind_of};
ghost use Rattle.session_log.specs.Lines.{WritesLogLine};
ghost use Rattle.hidlog.specs.CommandLine.{check, show as shown, to_path, to_texts};
ghost use Rattle.hidlog.specs.Program.{to_result};
ghost use Rattle.hidlog.specs.Program.{CanFail};
ghost use Rattle.hidlog.specs.Program.{IsWhole};
ghost use Rattle.session_log.specs.declared.command.ReplayMode.TheVariants.{Check as comparing};
ghost use Rattle.session_show.specs.declared.detail.Detail.TheVariants.{Fixed as fixed};
ghost use Rattle.hidlog.specs.Commands.{Answers, CarriesOut, DoesCommand, WritesClapMessage, Reads, Reports, ShowsIn, ShowsLog, detail_for};

use crate::args::{Action, ShowFormat, parse_args};
use crate::buffered_output::{Output, flush_then};
use crate::commands::{Play, open_log};
use crate::escape::EscapedText;
use crate::fault::{Notice, ProgramFault};
use crate::files::Files;
use crate::host::{Host, Modeled};
use crate::logs::Logs;
use crate::notes::EndState;
use crate::process::{WRITING_FAILED, no_memory, put_message, write_error_text};
use crate::report_options::ReportOptions;
use clap::Error;
use clap::error::ErrorKind;
use session_log::{LogFault, ReplayMode, Target, put_all};
use session_show::{LogWriter, OutputFormat, explain, put_json_fault, show, write_log};

/// The result of a task, and what else can be reported about a single log.
#[derive(Drop)]
pub struct RunOutcome<'a> {
    /// The exit status is 0 for Ok, or else the error.
    pub status: Result<(), u8>,
    /// Whether error messages are explained.
    pub explains: bool,
    /// The log's error.
    pub fault: Option<LogFault>,
    /// The message about an error outside the log, if error messages aren't explained.
    pub notice: Option<Notice>,
    /// The state of the session at the end of a log without errors.
    pub ending: Option<EndState>,
    /// How the differences are reported, if the log was checked.
    pub options: Option<ReportOptions<'a>>,
}

impl RunOutcome<'_> {
    /// Returns a result that has only a status.
    pub fn of(status: Result<(), u8>, explains: bool) -> Self
        ensures { result.status ≡ status }
    {
        RunOutcome {
            status,
            explains,
            fault: None,
            notice: None,
            ending: None,
            options: None,
        }
    }
}

/// Writes a text to the output.
fn put_text<O: Target>(output: &mut O, text: &[u8]) -> Result<(), LogFault>
    requires { O.failed output.old < 2 ^ 64 - 1 }
    ensures { WritesLogLine O.taken O.failed (output.old, output.new) text.now result }
{
    match put_all(output, text) {
        Ok(()) => Ok(()),
        Err(_) => Err(LogFault::Write),
    }
}

/// Writes the log in a format, up to its first error, if any. In JSON, the objects of the open transactions come last,
/// followed by the object of the error.
#[inline(never)]
fn show_in_format<L: Logs, O: Target>(
    form: OutputFormat,
    input: &mut L,
    output: &mut O,
) -> Result<(), LogFault>
    requires reads { L.failed input.old < 2 ^ 64 - 1 }
    requires writes { O.failed output.old < 2 ^ 64 - 1 }
    ensures { OnOk result (IsWhole L.left L.ended L.failed O.failed (input.old, input.new) (output.old, output.new)) }
{
    let mut log_writer = LogWriter::new(form);
    match write_log(input, output, &mut log_writer) {
        Ok(()) => {
            match log_writer.put(output) {
                Ok(()) => Ok(()),
                Err(_) => Err(LogFault::Write),
            }
        }
        Err(fault) => {
            let is_lost = matches!(fault, LogFault::Write) || output.failures() == u64::MAX;
            if is_lost {
                return Err(fault);
            }
            if log_writer.put(output).is_err() || output.failures() == u64::MAX {
                return Err(LogFault::Write);
            }
            if !matches!(form, OutputFormat::Table) {
                let _ = put_json_fault(output, &fault);
            }
            Err(fault)
        }
    }
}

/// Shows the log in this format.
fn show_in<L: Logs, O: Target>(
    form: ShowFormat,
    is_explained: bool,
    input: &mut L,
    output: &mut O,
) -> Result<(), LogFault>
    requires reads { L.failed input.old < 2 ^ 64 - 1 }
    requires writes { O.failed output.old < 2 ^ 64 - 1 }
    ensures { ShowsIn form (detail_for is_explained) L.left L.failed L.ended O.taken O.failed result (input.old, input.new)
        (output.old, output.new) }
{
    match (form, is_explained) {
        (ShowFormat::Lines, false) => show(input, output),
        (ShowFormat::Lines, true) => explain(input, output),
        (ShowFormat::Summary, _) => show_in_format(OutputFormat::Table, input, output),
        (ShowFormat::JsonSummary, _) => show_in_format(OutputFormat::Summary, input, output),
        (ShowFormat::Json, _) => show_in_format(OutputFormat::Objects, input, output),
    }
}

impl<D: Files, L: Logs, O: Output, E: Target> Host<D, L, O, E> {
    /// Writes clap's help or version to the output, or clap's error to standard error. The status is 0 if the help or
    /// the version was written, and 2 otherwise.
    fn write_clap_message(&mut self, error: &Error) -> Result<(), u8>
        requires { CanFail ⟦<Self as Modeled>⟧.model self.old }
        ensures status { IfErr result (λ code. (code ≡ 1) ⊎ (code ≡ 2)) }
        ensures explains { WritesClapMessage ⟦<Self as Modeled>⟧.model (kind_of error.now) result self.old self.new }
    {
        if let ErrorKind::OutOfMemory = error.kind() {
            return Err(no_memory(&mut self.faults));
        }
        let Ok(text) = error.to_string(self.alloc) else {
            return Err(no_memory(&mut self.faults));
        };
        if error.use_stderr() {
            // Invisible characters in arguments are escaped.
            let _ = put_message(&mut self.faults, &EscapedText(text.as_bytes()));
            return Err(2);
        }
        let answer = put_text(&mut self.output, text.as_bytes());
        if flush_then(&mut self.output, answer).is_err() {
            write_error_text(&mut self.faults, WRITING_FAILED);
            return Err(2);
        }
        Ok(())
    }

    /// Shows the log.
    #[inline(never)]
    fn show_log<'a>(
        &mut self,
        form: ShowFormat,
        is_explained: bool,
        log: Option<&'a str>,
    ) -> Result<(), ProgramFault<'a>>
        requires { CanFail ⟦<Self as Modeled>⟧.model self.old }
        ensures { Reads ⟦<Self as Modeled>⟧.model (to_path log.entry)
            (λ read. ShowsLog ⟦<Self as Modeled>⟧.model form (detail_for is_explained) (to_result result) read self.new)
            (to_result result) self.old self.new }
    {
        open_log(&mut self.input, log)?;
        let answer = show_in(form, is_explained, &mut self.input, &mut self.output);
        match flush_then(&mut self.output, answer) {
            Ok(()) => Ok(()),
            Err(fault) => Err(ProgramFault::Log(fault)),
        }
    }

    /// Reports the result of processing a log.
    fn report_result<'a, A>(
        &mut self,
        came: &Result<A, ProgramFault<'_>>,
        explains: bool,
    ) -> RunOutcome<'a>
        requires { E.failed self.old.faults < 2 ^ 64 - 1 }
        ensures status { IfErr result.status (λ code. (code ≡ 1) ⊎ (code ≡ 2)) }
        ensures reports { Reports ⟦<Self as Modeled>⟧.model explains (to_result came.now) result.status self.old self.new }
    {
        let Err(fault) = came else {
            return RunOutcome::of(Ok(()), explains);
        };
        self.report(fault, explains);
        let mut outcome = RunOutcome::of(Err(fault.status()), explains);
        if let ProgramFault::Log(fault) = fault {
            outcome.fault = Some(*fault);
        }
        if !explains {
            outcome.notice = fault.notice();
        }
        outcome
    }

    /// Plays a log, and reports the result.
    fn run_command<'a>(&mut self, play: &Play<'_>, explains: bool) -> RunOutcome<'a>
        requires { CanFail ⟦<Self as Modeled>⟧.model self.old }
        ensures status { IfErr result.status (λ code. (code ≡ 1) ⊎ (code ≡ 2)) }
        ensures does { DoesCommand ⟦<Self as Modeled>⟧.model play.now.command (to_path play.now.load) (to_path play.now.save)
            (to_path play.now.log) explains result.status self.old self.new }
    {
        let came = self.play_log(play);
        let mut outcome = self.report_result(&came, explains);
        outcome.ending = came.ok();
        outcome
    }

    /// Checks the log at a path or on standard input, and reports the result.
    fn check_log<'a>(&mut self, options: ReportOptions<'a>, log: Option<&'a str>) -> RunOutcome<'a>
        requires { CanFail ⟦<Self as Modeled>⟧.model self.old }
        ensures status { IfErr result.status (λ code. (code ≡ 1) ⊎ (code ≡ 2)) }
        ensures does { DoesCommand ⟦<Self as Modeled>⟧.model comparing (to_path options.entry.load) None (to_path log.entry)
            options.entry.explains result.status self.old self.new }
    {
        let play = Play {
            command: ReplayMode::Check,
            load: options.load,
            save: None,
            log,
        };
        let mut outcome = self.run_command(&play, options.explains);
        outcome.options = Some(options);
        outcome
    }

    /// Checks the logs at these paths, or standard input without paths. If there are several logs, each report contains
    /// the log's path.
    fn check_logs<'a>(&mut self, options: ReportOptions<'a>, logs: &[&'a str]) -> RunOutcome<'a>
        requires { CanFail ⟦<Self as Modeled>⟧.model self.old }
        ensures status { IfErr result.status (λ code. (code ≡ 1) ⊎ (code ≡ 2)) }
        ensures does { CarriesOut ⟦<Self as Modeled>⟧.model (check (to_path options.entry.load) options.entry.is_all options.entry.is_json
            (to_texts logs.now)) fixed options.entry.explains result.status self.old self.new }
    {
        match (options.is_json, logs) {
            (false, []) => self.check_log(options, None),
            (false, [log]) => self.check_log(options, Some(*log)),
            (true, []) => RunOutcome::of(self.check_each(&options, &["-"]), options.explains),
            (_, _) => RunOutcome::of(self.check_each(&options, logs), options.explains),
        }
    }

    /// Runs the program with these arguments. The first argument is the program's name. The exit status is 1 for an
    /// error in the log or a log that can't be opened, and 2 for invalid arguments, a snapshot that can't be used, or a
    /// failed allocation outside the log. The error message is written to standard error, if possible.
    pub fn run<'a>(&mut self, words: &'a [&'a str]) -> RunOutcome<'a>
        requires { CanFail ⟦<Self as Modeled>⟧.model self.old }
        ensures status { IfErr result.status (λ code. (code ≡ 1) ⊎ (code ≡ 2)) }
        // The task was carried out, as `Answers` defines.
        ensures answered { Answers ⟦<Self as Modeled>⟧.model (to_texts words.now) result.status self.old self.new }
    {
        let alloc = self.alloc;
        let asked = match parse_args(alloc, words) {
            Ok(asked) => asked,
            Err(error) => return RunOutcome::of(self.write_clap_message(&error), false),
        };
        let explains = asked.verbosity.explains(self.terminals.faults);
        match asked.task {
            Action::Play(play) => self.run_command(&play, explains),
            Action::Check {
                load,
                is_all,
                is_json,
            } => {
                let options = ReportOptions {
                    alloc,
                    explains,
                    load,
                    path: None,
                    is_all,
                    is_json,
                    is_same: false,
                    width: self.width,
                };
                self.check_logs(options, &asked.logs)
            }
            // `wide` is ignored here, because `Screen` truncates the lines.
            Action::Show { form, wide: _, log } => {
                let is_explained = asked.verbosity.explains(self.terminals.output);
                let came = self.show_log(form, is_explained, log);
                self.report_result(&came, explains)
            }
        }
    }
}
