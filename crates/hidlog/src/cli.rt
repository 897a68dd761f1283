//! The commands, options and help texts of the command line, as clap needs them.
ghost use Rattle.std.specs.Prelude.{◌≡◌, false, IfOk};
ghost use Rattle.clap.specs.Words.{app_of, rule_of, shape_of};
ghost use Rattle.clap.specs.declared.builder.command.Command.TheViews.{out-Command as fields_of};
ghost use Rattle.hidlog.specs.CommandLine.{command_for, grammar, rule_for};

use clap::{Arg, ArgAction, Command};
use std::alloc::{AllocError, Global};

/// The program's version, as in CHANGELOG.md.
const VERSION: &str = "0.2.0";

/// The first lines of the help.
const ABOUT: &str = "Record, replay and check CTAPHID sessions of a FIDO2 security key\n\n\
     The Python package adds: webdriver, browser, import, export, judge, shrink, check-many, mermaid";

/// A kind of argument.
#[derive(Clone, Copy)]
enum ParameterForm {
    /// `--load F`
    PathOption,
    /// `--all`
    Flag,
    /// The path of a log.
    Log,
    /// The paths of any number of logs.
    Logs,
}

/// An argument of a command.
#[derive(Clone, Copy)]
struct CommandParameter {
    form: ParameterForm,
    /// The argument's name in clap. For an option, also the option's name without `--`.
    word: &'static str,
    help: &'static str,
}

/// The option `--load F`.
const LOAD: CommandParameter = CommandParameter {
    form: ParameterForm::PathOption,
    word: "load",
    help: "Load credentials from snapshot file F",
};

/// The option `--save F`.
const SAVE: CommandParameter = CommandParameter {
    form: ParameterForm::PathOption,
    word: "save",
    help: "Write a snapshot of the credentials to F at the end, unless the log has a fault; it is first \
           written to F.hidlog-copy",
};

/// The option `--all`.
const ALL: CommandParameter = CommandParameter {
    form: ParameterForm::Flag,
    word: "all",
    help: "Report all differences, not only the first",
};

/// The option `--summary`.
const SUMMARY: CommandParameter = CommandParameter {
    form: ParameterForm::Flag,
    word: "summary",
    help: "Print a summary: transactions, credentials, ignored inputs",
};

/// The option `--json`.
const JSON: CommandParameter = CommandParameter {
    form: ParameterForm::Flag,
    word: "json",
    help: "Print one JSON object per line",
};

/// The option `--wide`.
const WIDE: CommandParameter = CommandParameter {
    form: ParameterForm::Flag,
    word: "wide",
    help: "Do not truncate lines to the terminal's width",
};

/// The option `--explain`.
const EXPLAIN: CommandParameter = CommandParameter {
    form: ParameterForm::Flag,
    word: "explain",
    help: "Add names, fields, reasons and notes (default on a terminal)",
};

/// The option `--plain`.
const PLAIN: CommandParameter = CommandParameter {
    form: ParameterForm::Flag,
    word: "plain",
    help: "Print the stable, machine-readable format (default when not a terminal)",
};

/// The argument for a log.
const LOG: CommandParameter = CommandParameter {
    form: ParameterForm::Log,
    word: "log",
    help: "The log file [default: standard input, also `-`]",
};

/// The argument for any number of logs.
const LOGS: CommandParameter = CommandParameter {
    form: ParameterForm::Logs,
    word: "log",
    help: "The log files [default: standard input, also `-`]",
};

/// Converts an argument to clap's type.
fn argument<'a>(alloc: Global, parameter: &CommandParameter) -> Arg<'a>
    ensures rule { rule_of result ≡ rule_for parameter.now }
    ensures local { result.global ≡ false }
{
    let word = parameter.word;
    let arg = Arg::new(alloc, word).help(parameter.help);
    match parameter.form {
        ParameterForm::PathOption => arg.long(word).value_name("F"),
        ParameterForm::Flag => arg.long(word).action(ArgAction::SetTrue),
        ParameterForm::Log => arg.value_name("FILE"),
        ParameterForm::Logs => arg.value_name("FILE").action(ArgAction::Append),
    }
}

/// A command and its help.
#[derive(Clone, Copy)]
struct CommandEntry {
    word: &'static str,
    about: &'static str,
    parameters: &'static [CommandParameter],
}

/// The commands, in the order of the help.
static COMMANDS: [CommandEntry; 5] = [
    CommandEntry {
        word: "replay",
        about: "Replay a log and print it with the key's response packets",
        parameters: &[LOAD, SAVE, EXPLAIN, PLAIN, LOG],
    },
    CommandEntry {
        word: "live",
        about: "Replay a log interactively, line by line",
        parameters: &[LOAD, SAVE, EXPLAIN, PLAIN, LOG],
    },
    CommandEntry {
        word: "check",
        about: "Check that the key sends the packets recorded in the log",
        parameters: &[LOAD, ALL, JSON, EXPLAIN, PLAIN, LOGS],
    },
    CommandEntry {
        word: "quiet",
        about: "Print the log's inputs with ignored ones replaced by ticks",
        parameters: &[LOAD, EXPLAIN, PLAIN, LOG],
    },
    CommandEntry {
        word: "show",
        about: "Print a log in readable form",
        parameters: &[SUMMARY, JSON, WIDE, EXPLAIN, PLAIN, LOG],
    },
];

/// Converts a command with its arguments to clap's type.
fn command<'a>(alloc: Global, entry: &CommandEntry) -> Result<Command<'a>, AllocError>
    ensures shape { IfOk result (λ made. shape_of made ≡ command_for entry.now) }
    ensures local { IfOk result (λ made. (fields_of made).has_globals ≡ false) }
{
    let mut command = Command::new(alloc, entry.word).about(entry.about);
    for parameter in entry.parameters {
        command = command.arg(argument(alloc, parameter))?;
    }
    Ok(command)
}

/// Returns the definition of the command line in clap's type.
pub fn program<'a>(alloc: Global) -> Result<Command<'a>, AllocError>
    ensures { IfOk result (λ program. app_of program ≡ grammar) }
{
    let mut program = Command::new(alloc, "hidlog")
        .version(VERSION)
        .about(ABOUT)
        .subcommand_required(true);
    for entry in &COMMANDS {
        match command(alloc, entry) {
            Ok(command) => program = program.subcommand(command)?,
            Err(error) => return Err(error),
        }
    }
    Ok(program)
}
