//! The program's command line arguments.
ghost use Rattle.std.specs.Prelude.{◌≡◌, List, ℕ, Some, IfOk, IfErr, IfSome, option_map, option_and_then};
ghost use Rattle.clap.specs.Words.{HasKind, subcommand_rows_of};
ghost use Rattle.hidlog.specs.CommandLine.{AreParsedOptions, argument_errors, command_task, task_and_verbosity, parsed_command_line, to_task, explains, show_format, is_set as is_found, log_paths_of, verbosity_of, task_for, to_texts};
ghost use Rattle.clap.specs.Matches.{found_of};
ghost use Rattle.clap.specs.Walk.{rows_of};

use crate::cli::program;
use crate::commands::Play;
use clap::{ArgMatches, Error};
use session_log::ReplayMode;
use std::alloc::{AllocError, Global};

/// The output format of `show`.
#[derive(Clone, Copy)]
pub enum ShowFormat {
    /// Line by line.
    Lines,
    /// A summary of the session.
    Summary,
    /// JSON objects.
    Json,
    /// A summary as JSON objects.
    JsonSummary,
}

/// The task that the arguments specify, with the paths of snapshots and logs.
#[derive(Clone, Copy)]
pub enum Action<'a> {
    /// `hidlog replay [--load F] [--save F] [FILE]`, `hidlog live [--load F] [--save F] [FILE]`, or `hidlog quiet
    /// [--load F] [FILE]`.
    Play(Play<'a>),
    /// `hidlog check [--load F] [--all] [--json] [FILE]..`
    Check {
        load: Option<&'a str>,
        is_all: bool,
        is_json: bool,
    },
    /// `hidlog show [--summary] [--json] [--wide] [FILE]`
    Show {
        form: ShowFormat,
        wide: bool,
        log: Option<&'a str>,
    },
}

/// The level of detail of the program's texts.
#[derive(Clone, Copy)]
pub enum Verbosity {
    /// Explained texts, with names, fields, reasons and notes.
    Explained,
    /// Texts in the fixed format, without explanations, for programs to read.
    Fixed,
    /// Explained if the output is a terminal, or else fixed.
    ByTerminal,
}

impl Verbosity {
    /// Returns whether texts are explained, given whether they go to a terminal.
    pub fn explains(self, is_terminal: bool) -> bool
        ensures { result ≡ explains self is_terminal }
    {
        match self {
            Verbosity::Explained => true,
            Verbosity::Fixed => false,
            Verbosity::ByTerminal => is_terminal,
        }
    }
}

/// The parsed arguments: the task, the paths of all logs, and the level of detail.
#[derive(Drop)]
pub struct Invocation<'a> {
    pub task: Action<'a>,
    /// The paths of all logs, used by `check`.
    pub logs: Vec<&'a str>,
    pub verbosity: Verbosity,
}

/// The options and paths of any command. Those that a command doesn't have are absent.
#[derive(Clone, Copy)]
struct CommandOptions<'a> {
    load: Option<&'a str>,
    save: Option<&'a str>,
    log: Option<&'a str>,
    all: bool,
    json: bool,
    wide: bool,
    form: ShowFormat,
    verbosity: Verbosity,
}

impl<'a> CommandOptions<'a> {
    /// Returns the task of the command with this name, or `None` if there is no such command.
    fn task(&self, name: &str) -> Option<Action<'a>>
        ensures { (logs : List (List ℕ)) → option_map (λ task. to_task task logs) result ≡ task_for name.now self.now logs }
    {
        let mut play = Play {
            command: ReplayMode::Replay,
            load: self.load,
            save: self.save,
            log: self.log,
        };
        match name {
            "replay" => {}
            "live" => play.command = ReplayMode::Live,
            "check" => {
                return Some(Action::Check {
                    load: self.load,
                    is_all: self.all,
                    is_json: self.json,
                });
            }
            "quiet" => {
                play.command = ReplayMode::Quiet;
                play.save = None;
            }
            "show" => {
                return Some(Action::Show {
                    form: self.form,
                    wide: self.wide,
                    log: self.log,
                });
            }
            _ => return None,
        }
        Some(Action::Play(play))
    }
}

/// Returns whether the arguments contain this flag.
fn is_set(options: &ArgMatches<'_>, name: &str) -> bool
    ensures { result ≡ is_found name.now (rows_of (found_of options.now)) }
{
    match options.get_str(name) {
        Some(text) => text == "true",
        None => false,
    }
}

/// Returns the output format that the options select.
fn parse_show_format(options: &ArgMatches<'_>) -> ShowFormat
    ensures { result ≡ show_format (rows_of (found_of options.now)) }
{
    match (is_set(options, "json"), is_set(options, "summary")) {
        (true, true) => ShowFormat::JsonSummary,
        (true, false) => ShowFormat::Json,
        (false, true) => ShowFormat::Summary,
        (false, false) => ShowFormat::Lines,
    }
}

/// Returns the level of detail; `--plain` overrides `--explain`.
fn parse_verbosity(options: &ArgMatches<'_>) -> Verbosity
    ensures { result ≡ verbosity_of (rows_of (found_of options.now)) }
{
    if is_set(options, "plain") {
        Verbosity::Fixed
    } else if is_set(options, "explain") {
        Verbosity::Explained
    } else {
        Verbosity::ByTerminal
    }
}

/// Returns the paths of the logs.
fn parse_logs<'a>(alloc: Global, options: &ArgMatches<'a>) -> Result<Vec<&'a str>, AllocError>
    ensures { IfOk result (λ logs. to_texts logs.items ≡ log_paths_of (rows_of (found_of options.now))) }
{
    match options.get_strs("log") {
        Some(paths) => {
            let logs = paths.to_vec(alloc)?;
            Ok(logs)
        }
        None => Ok(Vec::new(alloc)),
    }
}

/// Returns the options and paths after a command's name.
fn parse_options<'a>(options: &ArgMatches<'a>) -> CommandOptions<'a>
    ensures { AreParsedOptions result (rows_of (found_of options.now)) }
{
    CommandOptions {
        load: options.get_str("load"),
        save: options.get_str("save"),
        log: options.get_str("log"),
        all: is_set(options, "all"),
        json: is_set(options, "json"),
        wide: is_set(options, "wide"),
        form: parse_show_format(options),
        verbosity: parse_verbosity(options),
    }
}

/// Returns the task of the command that clap found in the arguments, if it is a known command.
fn parse_action<'a>(
    alloc: Global,
    matches: &ArgMatches<'a>,
) -> Result<Option<Invocation<'a>>, AllocError>
    ensures { IfOk result (λ asked. option_map task_and_verbosity asked ≡ option_and_then command_task (subcommand_rows_of matches.now)) }
{
    let Some((name, found)) = matches.subcommand() else {
        return Ok(None);
    };
    let options = parse_options(found);
    match options.task(name) {
        Some(task) => Ok(Some(Invocation {
            task,
            logs: parse_logs(alloc, found)?,
            verbosity: options.verbosity,
        })),
        None => Ok(None),
    }
}

/// Parses arguments that consist only of a command, such as `hidlog replay`. Clap isn't used, because its parsing is a
/// fifth of the instructions that are executed before the first line of a log.
fn parse_without_options<'a>(alloc: Global, words: &[&str]) -> Option<Invocation<'a>>
    ensures { IfSome result (λ asked. parsed_command_line (to_texts words.now) ≡ Some (task_and_verbosity asked)) }
{
    let [_, name] = words else {
        return None;
    };
    let options = CommandOptions {
        load: None,
        save: None,
        log: None,
        all: false,
        json: false,
        wide: false,
        form: ShowFormat::Lines,
        verbosity: Verbosity::ByTerminal,
    };
    match options.task(name) {
        Some(task) => Some(Invocation {
            task,
            logs: Vec::new(alloc),
            verbosity: options.verbosity,
        }),
        None => None,
    }
}

/// Returns the parsed arguments, or clap's help or error. The first argument is the program's name.
#[inline(never)]
pub fn parse_args<'a>(alloc: Global, words: &'a [&'a str]) -> Result<Invocation<'a>, Error>
    ensures task { IfOk result (λ asked. parsed_command_line (to_texts words.now) ≡ Some (task_and_verbosity asked)) }
    ensures answer { IfErr result (λ error. HasKind (argument_errors (to_texts words.now)) error) }
{
    if let Some(asked) = parse_without_options(alloc, words) {
        return Ok(asked);
    }
    let matches = program(alloc)?.try_get_matches_from(words)?;
    let asked = parse_action(alloc, &matches);
    drop(matches);
    match asked? {
        Some(asked) => Ok(asked),
        // clap rejects arguments that contain no command.
        None => unreachable!(),
    }
}
