//! The library of the program `hidlog`, which replays text logs of CTAPHID sessions. `run` runs the program on any
//! streams, and `run_process` on those of the process.
#![tactic(auto)]

mod args;
mod buffered_output;
mod caller_streams;
mod check_files;
mod cli;
mod commands;
mod diff;
mod differences;
mod disk;
mod entry_points;
mod escape;
mod fault;
mod files;
mod finding;
mod host;
mod json_report;
mod logs;
mod notes;
mod parse_hint;
mod play;
mod process;
mod program;
mod progress;
mod recent_bytes;
mod remember_error;
mod report_options;
mod snapshots;
mod source_stats;
mod split;
mod sums;
mod terminal;
mod terminal_output;

pub use crate::entry_points::{run, run_process};
