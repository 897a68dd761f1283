//! The terminals of the program's process.
use crate::args::{Action, ShowFormat, parse_args};
use crate::buffered_output::FlushPolicy;
use crate::host::TerminalFlags;
use crate::logs::ProgressMode;
use crate::terminal_output::Style;
use std::env;
use std::io::IsTerminal;

/// The width of a terminal, unless the environment variable COLUMNS is a number.
const DEFAULT_WIDTH: usize = 80;

/// The minimum width at which lines are truncated.
const MIN_WIDTH: usize = 20;

/// The maximum width at which lines are truncated.
const MAX_WIDTH: usize = 1000;

/// The column in which line numbers end.
const NUMBER_COLUMN: usize = 5;

/// How the program uses the terminals of its process, for given arguments.
#[derive(Clone, Copy)]
pub struct TerminalInfo {
    pub terminals: TerminalFlags,
    /// Whether the command is `check`.
    pub is_check: bool,
    pub flush_policy: FlushPolicy,
    /// The progress display.
    pub progress_mode: ProgressMode,
    /// The style of the log's lines, if standard output is a terminal.
    pub style: Option<Style>,
    /// The width of standard error, if it is a terminal.
    pub width: Option<usize>,
}

/// Returns how the program uses the terminals of its process, for these arguments.
pub fn terminal_info(rt: &HostRuntime, words: &[&str]) -> TerminalInfo {
    let terminals = TerminalFlags {
        output: rt.stdout().is_terminal(),
        faults: rt.stderr().is_terminal(),
    };
    let (is_check, flush_policy) = match words {
        [_, "check", ..] => (true, FlushPolicy::Nothing),
        [_, "replay" | "quiet", ..] => (false, FlushPolicy::All),
        [_, "show", ..] => (false, FlushPolicy::UntilNextInput),
        _ => (false, FlushPolicy::Nothing),
    };
    // The width of the terminal, from the environment variable COLUMNS if possible.
    let columns = match env::var(rt, "COLUMNS") {
        Ok(text) => text.as_str().parse::<usize>().unwrap_or(DEFAULT_WIDTH),
        Err(_) => DEFAULT_WIDTH,
    };
    let columns = columns.clamp(MIN_WIDTH, MAX_WIDTH);
    let mut around = TerminalInfo {
        terminals,
        is_check,
        flush_policy,
        progress_mode: ProgressMode::default(),
        style: None,
        width: terminals.faults.then_some(columns),
    };
    // If no stream is a terminal, the arguments aren't needed.
    if (terminals.output || terminals.faults || rt.stdin().is_terminal())
        && let Ok(asked) = parse_args(rt.alloc(), words)
    {
        let is_told = asked.verbosity.explains(terminals.faults);
        around.progress_mode.is_told = is_told;
        around.progress_mode.sees_progress = is_told
            && terminals.faults
            && (is_check || !terminals.output);
        if terminals.output && asked.verbosity.explains(true) {
            around.style = style_of(rt, &asked.task, columns);
        }
    }
    around
}

/// Returns the style of a log's lines at a terminal.
fn style_of(rt: &HostRuntime, task: &Action<'_>, columns: usize) -> Option<Style> {
    match task {
        Action::Show {
            form: ShowFormat::Lines | ShowFormat::Summary,
            wide,
            ..
        } => Some(Style {
            width: if *wide { usize::MAX } else { columns },
            // A nonempty NO_COLOR turns colours off (see no-color.org).
            has_colours: match env::var(rt, "NO_COLOR") {
                Ok(text) => text.as_str().is_empty(),
                Err(_) => true,
            },
            numbers: NUMBER_COLUMN,
        }),
        _ => None,
    }
}
