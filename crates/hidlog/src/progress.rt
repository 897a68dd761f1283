//! The progress of reading a long log, shown at a terminal.
use session_show::{Detail, TextBuf};
use std::io::Write;

/// The number of bytes that are read in about a second. For a shorter log, no progress is shown.
pub const MIN_PROGRESS_SIZE: u64 = 64 << 20;

/// Number of bytes between updates.
const UPDATE_INTERVAL: u64 = 8 << 20;

/// Bytes in a megabyte.
const MEGABYTE: u64 = 1_000_000;

/// The text that clears the current line: spaces between carriage returns.
const CLEAR_LINE: &[u8] = b"\r                              \r";

/// Shows the progress of reading a log, if requested.
#[derive(Clone, Copy)]
pub struct Progress {
    pub is_shown: bool,
    /// Length of the log, if the log can be read a second time.
    pub size: Option<u64>,
    /// Number of bytes at which the next update is due.
    pub next: u64,
    /// Whether the last update is still visible.
    pub is_written: bool,
}

impl Progress {
    /// Shows that `len` bytes were read. With `None`, at the end of the log, clears the line. The cursor stays at the
    /// start of the line, so that the next text overwrites the progress.
    pub fn pass(&mut self, rt: &HostRuntime, len: Option<u64>) {
        let Some(len) = len else {
            if self.is_written {
                self.is_written = false;
                let _ = rt.stderr().write_all(CLEAR_LINE);
            }
            return;
        };
        if !self.is_shown || len < self.next {
            return;
        }
        self.next = len.saturating_add(UPDATE_INTERVAL);
        self.is_written = true;
        let mut buf = TextBuf::new(Detail::Fixed);
        match self.size {
            Some(size) => buf.format(
                b"  %d of %d MB\r",
                &[Some(len / MEGABYTE), Some(size / MEGABYTE)],
            ),
            None => buf.format(b"  %d MB\r", &[Some(len / MEGABYTE)]),
        }
        let _ = rt.stderr().write_all(buf.part());
    }
}
