//! The program's environment: files, log, output and error stream.
ghost use Rattle.std.specs.Prelude.{◌<◌, ◌-◌, ◌^◌, Err};
ghost use Rattle.hidlog.specs.Program.{Model};

use crate::buffered_output::Output;
use crate::fault::{ErrorDetail, ProgramFault};
use crate::files::Files;
use crate::logs::Logs;
use crate::process::{report_error, write_error_text};
use session_log::{Target, write_error};
use std::alloc::Global;

/// Which of the program's streams are terminals.
#[derive(Clone, Copy)]
pub struct TerminalFlags {
    /// Standard output.
    pub output: bool,
    /// Standard error.
    pub faults: bool,
}

/// The program's environment.
#[derive(Drop)]
pub struct Host<D, L, O, E> {
    /// The snapshot files.
    pub files: D,
    /// The log.
    pub input: L,
    /// The output.
    pub output: O,
    /// The stream for error messages.
    pub faults: E,
    pub alloc: Global,
    pub terminals: TerminalFlags,
    /// The width of the terminal to which errors are written, or `None` if they are written elsewhere.
    pub width: Option<usize>,
}

/// An environment whose parts have a model in contracts.
pub trait Modeled {
    type Files;

    type Log;

    type Output;

    type Faults;

    ghost model: { Model Self.Files Self.Log Self.Output Self.Faults };
}

impl<D: Files, L: Logs, O: Output, E: Target> Modeled for Host<D, L, O, E> {
    type Files = D;

    type Log = L;

    type Output = O;

    type Faults = E;

    ghost model = { record {
      holds = D.holds;
      unreadable = D.unreadable;
      written = D.written;
      unwritten = D.unwritten;
      unwritable = D.unwritable;
      opened = L.opened;
      unopenable = L.unopenable;
      left = L.left;
      unread = L.failed;
      ended = L.ended;
      taken = O.taken;
      unput = O.failed;
      waits = O.waits;
      parsed = E.taken;
      unsaid = E.failed;
    } };
}

impl<D: Files, L: Logs, O: Output, E: Target> Host<D, L, O, E> {
    ghost use Rattle.hidlog.specs.Commands.{Reports};
    ghost use Rattle.hidlog.specs.Program.{exit_status, to_fault_text};

    /// Writes an error message, with the reason if errors are explained.
    pub fn report(&mut self, fault: &ProgramFault<'_>, explains: bool)
        requires { E.failed self.old.faults < 2 ^ 64 - 1 }
        ensures { Reports ⟦<Self as Modeled>⟧.model explains (Err (to_fault_text fault.now)) (Err (exit_status fault.now)) self.old self.new }
    {
        match fault {
            ProgramFault::Log(fault) => write_error(&mut self.faults, fault),
            ProgramFault::Memory => write_error_text(&mut self.faults, fault.text()),
            ProgramFault::LogOpenError(path, _)
            | ProgramFault::SnapshotReadError(path, _)
            | ProgramFault::RefusedSnapshot(path, _, _)
            | ProgramFault::SnapshotWriteError(path, _) => {
                let is_unread = matches!(
                    fault,
                    ProgramFault::SnapshotReadError(..) | ProgramFault::RefusedSnapshot(..)
                );
                let copy = if explains && is_unread {
                    self.files.leftover_copy(path)
                } else {
                    None
                };
                let why = ErrorDetail { fault, path, copy };
                report_error(&mut self.faults, explains, fault.text(), &why);
            }
        }
    }
}
