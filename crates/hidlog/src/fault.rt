//! Errors of the program, kept as values until they are printed.
ghost use Rattle.std.specs.Prelude.{◌≡◌, ◌⊎◌};

use crate::escape::write_display;
use crate::files::{COPY_SUFFIX, DAMAGED_REASON, LOCKED_REASON, SaveError};
use cred_table::SnapshotFault;
use session_log::{CAPACITY, LogFault};
use session_show::{TextBuf, WriteText, write_escaped};
use std::io::{self, ErrorKind};

/// An error that ended the processing of a log, with the path that it concerns.
#[derive(Drop)]
pub enum ProgramFault<'a> {
    /// Out of memory.
    Memory,
    /// An error in the log.
    Log(LogFault),
    /// The log cannot be opened.
    LogOpenError(&'a str, io::Error),
    /// The snapshot cannot be read.
    SnapshotReadError(&'a str, io::Error),
    /// The snapshot with these bytes is rejected.
    RefusedSnapshot(&'a str, SnapshotFault, Vec<u8>),
    /// The snapshot cannot be written.
    SnapshotWriteError(&'a str, SaveError),
}

impl ProgramFault<'_> {
    ghost use Rattle.hidlog.specs.Program.{exit_status, text_of};

    /// Returns the exit status.
    pub fn status(&self) -> u8
        ensures code { result ≡ exit_status self.now }
        ensures either { (result ≡ 1) ⊎ (result ≡ 2) }
    {
        match self {
            ProgramFault::Log(_) | ProgramFault::LogOpenError(..) => 1,
            _ => 2,
        }
    }

    /// Returns the error message. The messages of log errors are written elsewhere.
    pub fn text(&self) -> &'static [u8]
        ensures { result.now ≡ text_of self.now }
    {
        match self {
            ProgramFault::Log(_) => b"",
            ProgramFault::Memory | ProgramFault::RefusedSnapshot(_, SnapshotFault::Memory, _) => {
                b"hidlog: no memory\n"
            }
            ProgramFault::LogOpenError(..) => b"hidlog: cannot read log\n",
            ProgramFault::SnapshotReadError(..) => b"hidlog: cannot read snapshot\n",
            ProgramFault::RefusedSnapshot(_, SnapshotFault::NotSnapshot, _) => {
                b"hidlog: snapshot refused: 1\n"
            }
            ProgramFault::RefusedSnapshot(_, SnapshotFault::TooMany, _) => {
                b"hidlog: snapshot refused: 2\n"
            }
            ProgramFault::RefusedSnapshot(_, SnapshotFault::RowBroken(_), _) => {
                b"hidlog: snapshot refused: 3\n"
            }
            ProgramFault::SnapshotWriteError(..) => b"hidlog: cannot write snapshot\n",
        }
    }

    /// Returns the line that follows the error message if messages aren't explained: the snapshot is locked, or its
    /// bytes don't match its checksums.
    pub fn notice(&self) -> Option<Notice> {
        let ProgramFault::SnapshotReadError(_, error) = self else {
            return None;
        };
        match error.kind() {
            ErrorKind::WouldBlock => Some(Notice::Held),
            ErrorKind::InvalidData => Some(Notice::Damaged),
            _ => None,
        }
    }
}

/// An error message of one line, without the path.
#[derive(Clone, Copy)]
pub enum Notice {
    /// Another program has locked the snapshot.
    Held,
    /// The snapshot's bytes don't match its checksums.
    Damaged,
}

impl WriteText for Notice {
    fn write(&self, buf: &mut TextBuf) {
        buf.text("  ");
        buf.text(match self {
            Notice::Held => LOCKED_REASON,
            Notice::Damaged => DAMAGED_REASON,
        });
        buf.text("\n");
    }
}

/// The details of an error, in one line.
#[derive(Clone, Copy)]
pub struct ErrorDetail<'a> {
    pub fault: &'a ProgramFault<'a>,
    /// The path that the error concerns.
    pub path: &'a str,
    /// The number of the copy that an interrupted write left beside the snapshot, if any.
    pub copy: Option<u64>,
}

/// Writes why the snapshot with these bytes is rejected.
fn write_refusal(buf: &mut TextBuf, fault: SnapshotFault, bytes: &[u8]) {
    match fault {
        SnapshotFault::TooMany => buf.format(b"more than %d credentials", &[Some(CAPACITY as u64)]),
        SnapshotFault::RowBroken(place) => buf.format(
            b"credential %d is invalid or a duplicate",
            &[Some(place.saturating_add(1) as u64)],
        ),
        SnapshotFault::NotSnapshot | SnapshotFault::Memory => match bytes {
            [] => buf.text("it is empty"),
            [0xA2, 0x01, 0x01 | 0x02, ..] => {
                buf.text("the snapshot is truncated or corrupt");
            }
            [0xA2, 0x01, version @ 0x03..=0x17, ..] => buf.format(
                b"unsupported version %d (supported: 1, 2)",
                &[Some(u64::from(*version))],
            ),
            _ => buf.text("it is not a snapshot"),
        },
    }
}

/// Writes the path of a copy of a snapshot.
fn write_copy_path(buf: &mut TextBuf, path: &[u8], number: u64) {
    write_escaped(buf, path);
    buf.text(COPY_SUFFIX);
    if number > 0 {
        buf.format(b".%d", &[Some(number)]);
    }
}

impl WriteText for ErrorDetail<'_> {
    fn write(&self, buf: &mut TextBuf) {
        let path = self.path.as_bytes();
        buf.text("  ");
        write_escaped(buf, path);
        buf.text(": ");
        // The text before the path of the copy, and the number of the copy.
        let mut copied = None;
        match self.fault {
            ProgramFault::Memory | ProgramFault::Log(_) => {}
            ProgramFault::LogOpenError(_, error)
            | ProgramFault::SnapshotReadError(_, error)
            | ProgramFault::SnapshotWriteError(_, SaveError::Kept(error)) => write_display(
                buf, error,
            ),
            ProgramFault::RefusedSnapshot(_, fault, bytes) => write_refusal(buf, *fault, bytes),
            ProgramFault::SnapshotWriteError(_, SaveError::Broken(error)) => {
                write_display(buf, error);
                buf.text("; it may be corrupt");
            }
            ProgramFault::SnapshotWriteError(_, SaveError::Copied(error, number)) => {
                write_display(buf, error);
                copied = Some((
                    "; it may be corrupt, and the new snapshot is whole in ",
                    *number,
                ));
            }
            ProgramFault::SnapshotWriteError(_, SaveError::CopyRemains(error, number)) => {
                buf.text("saved, but its backup ");
                write_copy_path(buf, path, *number);
                buf.text(" couldn't be removed: ");
                write_display(buf, error);
            }
        }
        if let Some(number) = self.copy {
            copied = Some(("; an interrupted --save left its new content in ", number));
        }
        if let Some((text, number)) = copied {
            buf.text(text);
            write_copy_path(buf, path, number);
        }
        buf.text("\n");
    }
}
