//! Checks several logs, one after the other.
ghost use Rattle.std.specs.Prelude.{◌≡◌, ◌<◌, ◌-◌, ◌^◌, ◌⊎◌, Err, IfErr, OnErr, OnOk};
ghost use Rattle.hidlog.specs.CommandLine.{to_path, to_texts};
ghost use Rattle.hidlog.specs.Commands.{Compares};
ghost use Rattle.hidlog.specs.Program.{CanFail};
ghost use Rattle.hidlog.specs.Program.{FaultText, exit_status, to_fault_text};
ghost use Rattle.hidlog.specs.Commands.{FailsToOpen};
ghost use Rattle.hidlog.specs.Commands.{FailsAt, IsSameAt};

use crate::buffered_output::Output;
use crate::commands::{new_program_session, open_log};
use crate::differences::report_differences;
use crate::escape::{EscapedText, StreamFailure};
use crate::fault::ProgramFault;
use crate::files::Files;
use crate::host::{Host, Modeled};
use crate::json_report::ProgramFaultObject;
use crate::logs::{LogState, Logs};
use crate::notes::{EndState, Notes};
use crate::parse_hint::first_parse_hint;
use crate::process::{WRITING_FAILED, write_message};
use crate::report_options::{FaultLine, ReportOptions};
use crate::snapshots::load;
use crate::split::Pieces;
use session_log::{LogFault, ReplayMode, Target, ToWrite};
use session_show::{TextBuf, WriteText};

/// Maximum length of a log that is read a second time to compare the bytes to sign.
const MAX_REREAD_LEN: u64 = 1 << 26;

/// The report of a log without differences. `text` is the result of the check, such as `same 14 inputs 22 packets`.
#[derive(Clone, Copy)]
struct SameLog<'a> {
    options: &'a ReportOptions<'a>,
    text: &'a [u8],
}

impl WriteText for SameLog<'_> {
    fn write(&self, buf: &mut TextBuf) {
        if !self.options.is_json {
            self.options.begin_line(buf);
            buf.bytes(self.text);
            return;
        }
        self.options.begin_object(buf, "same");
        let mut words = Pieces {
            rest: self.text,
            end: b' ',
        };
        let _ = words.next();
        buf.text(",\"inputs\":");
        buf.bytes(words.next().unwrap_or(b"0"));
        let _ = words.next();
        buf.text(",\"packets\":");
        buf.bytes(words.next().unwrap_or(b"0"));
        buf.text("}\n");
    }
}

/// Reports why a line isn't a log line, or why reading failed. `name` is the log's name for a failed read, if the name
/// hasn't been written yet.
pub fn report_cause<E: Target>(
    state: &LogState<'_>,
    name: Option<&str>,
    fault: &LogFault,
    faults: &mut E,
) {
    match fault {
        LogFault::BadLine(_) | LogFault::TooLong(_) => {
            if let Some(hint) = first_parse_hint(state.lines) {
                write_message(faults, &hint);
            }
        }
        LogFault::Read(_) => {
            if let Some(error) = state.failure {
                write_message(faults, &StreamFailure { name, error });
            }
        }
        _ => {}
    }
}

/// Reports what may be wrong with a log that has no differences, if texts are explained or written as JSON.
pub fn report_note<D: Files, L: Logs, E: Target>(
    files: &D,
    options: &ReportOptions<'_>,
    input: &mut L,
    ending: &EndState,
    faults: &mut E,
)
    ensures { input.new ≡ input.old }
{
    if !options.explains && !options.is_json {
        return;
    }
    let seen = input.state().seen;
    let len = seen.len;
    let notes = Notes {
        options: &*options,
        seen,
        ending: &*ending,
    };
    write_message(faults, &notes);
    if ending.has_served && len <= MAX_REREAD_LEN {
        let mut same = *options;
        same.is_same = true;
        let again = input.reread(false);
        report_differences(files, &same, again, None, faults);
    }
}

impl<D: Files, L: Logs, O: Output, E: Target> Host<D, L, O, E> {
    /// Checks the log at a path on a new session, writes the text for a log without differences to `same`, and returns
    /// how the log ended.
    #[inline(never)]
    fn compare<'a>(
        &mut self,
        options: &ReportOptions<'a>,
        path: &'a str,
        same: &mut Vec<u8>,
    ) -> Result<EndState, ProgramFault<'a>>
        requires { L.failed self.old.input < 2 ^ 64 - 1 }
        ensures only { self.new ≡ record self.old { input = self.new.input } }
        ensures same { OnOk result (IsSameAt ⟦<Self as Modeled>⟧.model (to_path options.now.load) self.old.files path.now
            (self.old.input, self.new.input)) }
        ensures fails { IfErr result (λ fault. FailsAt ⟦<Self as Modeled>⟧.model (to_path options.now.load) self.old.files path.now
            (to_fault_text fault) (self.old.input, self.new.input)) }
        ensures snapshot { IfErr result (λ fault. exit_status fault ≡ 2 →
            FailsToOpen D.holds D.unreadable self.old.files (to_path options.now.load) (Err (to_fault_text fault))) }
    {
        let session = &mut new_program_session();
        let input = &mut self.input;
        if path == "-"
            && let Err(error) = input.open(None)
        {
            return Err(ProgramFault::LogOpenError(path, error));
        }
        if let Err(fault) = open_log(input, Some(path)) {
            return Err(fault);
        }
        if let Err(fault) = load(session, &self.files, options.load) {
            return Err(fault);
        }
        let mut writer = ToWrite::new(&mut *same);
        match ReplayMode::Check.play(session, input, &mut writer) {
            Ok(()) => Ok(EndState::of(session)),
            Err(fault) => Err(ProgramFault::Log(fault)),
        }
    }

    /// Reports a log without differences, and what may be wrong with it. The error is the exit status.
    fn report_equal(
        &mut self,
        options: &ReportOptions<'_>,
        ending: &EndState,
        text: &[u8],
    ) -> Result<(), u8>
        ensures status { IfErr result (λ code. code ≡ 1) }
        ensures files { self.new.files ≡ self.old.files }
        ensures input { self.new.input ≡ self.old.input }
        ensures written { OnOk result (O.failed self.new.output ≡ 0) }
        ensures unwritten { OnErr result (0 < O.failed self.new.output) }
    {
        let input = &mut self.input;
        if write_message(&mut self.output, &SameLog { options, text }) {
            if options.is_json {
                report_note(&self.files, options, input, ending, &mut self.output);
            } else {
                report_note(&self.files, options, input, ending, &mut self.faults);
            }
        }
        if self.output.failures() == 0 {
            return Ok(());
        }
        write_message(&mut self.faults, &EscapedText(WRITING_FAILED));
        Err(1)
    }

    /// Reports the error of a log, with details if texts are explained, and then the log's differences, as JSON if
    /// requested.
    fn report_failure(&mut self, options: &ReportOptions<'_>, fault: &ProgramFault<'_>)
        requires { E.failed self.old.faults < 2 ^ 64 - 1 }
        ensures { self.new.files ≡ self.old.files }
    {
        // Only an error at a line of the log is reported with the log's path and the line.
        if let ProgramFault::Log(told) = fault
            && !matches!(told, LogFault::Write | LogFault::TooManyLines)
        {
            let fault = *told;
            let faults = &mut self.faults;
            if write_message(faults, &FaultLine { options, fault }) && options.explains {
                report_cause(&self.input.state(), None, told, faults);
            }
            if let LogFault::Differs { .. } = told {
                let again = self.input.reread(true);
                if options.is_json {
                    report_differences(&self.files, options, again, Some(fault), &mut self.output);
                } else {
                    report_differences(&self.files, options, again, Some(fault), faults);
                }
            }
        } else {
            self.report(fault, options.explains);
            if !options.explains
                && let Some(notice) = fault.notice()
            {
                write_message(&mut self.faults, &notice);
            }
        }
        if options.is_json {
            let output = &mut self.output;
            if output.failures() == 0 {
                write_message(output, &ProgramFaultObject { options, fault });
            }
            if output.failures() > 0 {
                write_message(&mut self.faults, &EscapedText(WRITING_FAILED));
            }
        }
    }

    /// Checks one of several logs, and reports the result with the log's path, as JSON if requested. The error is the
    /// exit status.
    fn check_one<'a>(&mut self, options: &ReportOptions<'a>, path: &'a str) -> Result<(), u8>
        requires { CanFail ⟦<Self as Modeled>⟧.model self.old }
        ensures status { IfErr result (λ code. (code ≡ 1) ⊎ (code ≡ 2)) }
        ensures kept { self.new.files ≡ self.old.files }
        ensures same { OnOk result (IsSameAt ⟦<Self as Modeled>⟧.model (to_path options.now.load) self.old.files path.now
            (self.old.input, self.new.input)) }
        ensures written { OnOk result (O.failed self.new.output ≡ 0) }
        ensures fails { OnErr result ((0 < O.failed self.new.output)
            ⊎ ((told : FaultText) × (after : L) × FailsAt ⟦<Self as Modeled>⟧.model (to_path options.now.load) self.old.files path.now
            told (self.old.input, after))) }
        ensures snapshot { result ≡ Err 2 → (told : FaultText)
            × FailsToOpen D.holds D.unreadable self.old.files (to_path options.now.load) (Err told) }
    {
        let mut same = Vec::new(self.alloc);
        match self.compare(options, path, &mut same) {
            Ok(ending) => self.report_equal(options, &ending, &same),
            Err(fault) => {
                self.report_failure(options, &fault);
                Err(fault.status())
            }
        }
    }

    /// Checks each log on a new session. The error is the exit status: 1 if a log differs, has an error or can't be
    /// opened, or if a report can't be written; or 2 if the snapshot can't be loaded or an allocation fails. After 2,
    /// no further log is read.
    pub fn check_each(&mut self, wished: &ReportOptions<'_>, paths: &[&str]) -> Result<(), u8>
        ensures status { IfErr result (λ code. (code ≡ 1) ⊎ (code ≡ 2)) }
        ensures compares { Compares ⟦<Self as Modeled>⟧.model (to_path wished.now.load) (to_texts paths.now) result
            self.old self.new }
    {
        let mut has_failed = false;
        for path in paths {
            if self.input.failures() == u64::MAX
                || self.faults.failures() == u64::MAX
                || self.output.failures() > 0
            {
                return Err(1);
            }
            let options = ReportOptions {
                path: if paths.len() == 1 { None } else { Some(*path) },
                ..*wished
            };
            let one = self.check_one(&options, path);
            has_failed = has_failed || one.is_err();
            if matches!(one, Err(2)) {
                return Err(2);
            }
        }
        if has_failed { Err(1) } else { Ok(()) }
    }
}
