//! Runs the program, and reports further details of its result.
ghost use Rattle.std.specs.Prelude.{◌≡◌, ◌⊎◌, IfErr};
ghost use Rattle.hidlog.specs.CommandLine.{to_texts};
ghost use Rattle.hidlog.specs.Commands.{Plays};
ghost use Rattle.hidlog.specs.Program.{CanFail};

use crate::buffered_output::Output;
use crate::check_files::{report_cause, report_note};
use crate::differences::report_differences;
use crate::files::Files;
use crate::host::{Host, Modeled};
use crate::logs::Logs;
use crate::process::{write_error_text, write_message};
use crate::program::RunOutcome;
use session_log::{LogFault, Target, ToWrite};

impl<D: Files, L: Logs, O: Output, E: Target> Host<D, L, O, E> {
    /// Returns further reports about a single log. Its differences are reported if texts are explained, all differences
    /// are requested or reports are JSON. If texts are explained, the reports also say why a line isn't a log line, why
    /// reading failed, or what may be wrong.
    fn further_report(&mut self, outcome: &RunOutcome<'_>) -> Vec<u8>
        ensures { self.new ≡ record self.old { input = self.new.input } }
    {
        let mut more = Vec::new(self.alloc);
        let mut target = ToWrite::new(&mut more);
        if let Some(notice) = &outcome.notice {
            write_message(&mut target, notice);
        }
        match &outcome.fault {
            None => {
                if let Some(ending) = &outcome.ending
                    && let Some(options) = &outcome.options
                {
                    report_note(&self.files, options, &mut self.input, ending, &mut target);
                }
            }
            Some(LogFault::Differs { .. }) => {
                if let Some(options) = &outcome.options {
                    let again = self.input.reread(true);
                    report_differences(&self.files, options, again, outcome.fault, &mut target);
                }
            }
            Some(fault) => {
                if outcome.explains {
                    let state = self.input.state();
                    report_cause(&state, Some(state.name), fault, &mut target);
                }
            }
        }
        more
    }

    /// Runs the program with these arguments, and reports the result.
    pub fn play<'a>(&mut self, words: &'a [&'a str]) -> RunOutcome<'a>
        requires { CanFail ⟦<Self as Modeled>⟧.model self.old }
        ensures status { IfErr result.status (λ code. (code ≡ 1) ⊎ (code ≡ 2)) }
        // The task was carried out. After it, at most one more text is written to standard error.
        ensures played { Plays ⟦<Self as Modeled>⟧.model (to_texts words.now) result.status self.old self.new }
    {
        let outcome = self.run(words);
        if self.faults.failures() > 0 || self.output.failures() > 0 {
            return outcome;
        }
        let more = self.further_report(&outcome);
        write_error_text(&mut self.faults, more.as_slice());
        outcome
    }
}
