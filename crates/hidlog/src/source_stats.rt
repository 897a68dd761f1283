//! Statistics of a log that is being read.
use crate::progress::{MIN_PROGRESS_SIZE, Progress};
use std::alloc::Global;

/// Maximum number of bytes that are kept of a log that can't be read a second time, such as a pipe.
const MAX_KEPT: usize = 1 << 20;

/// Statistics of the part of a log that was read.
#[derive(Drop)]
pub struct SourceStats {
    /// Number of bytes.
    pub len: u64,
    /// Whether the last byte is a line feed. True if no byte was read.
    pub ends_line: bool,
    pub has_input: bool,
    /// All bytes of the log so far, if they are kept.
    pub kept: Option<Vec<u8>>,
    pub progress: Progress,
}

impl SourceStats {
    /// Returns the statistics before the first byte. `size` is the log's length if the log can be read a second time.
    /// Otherwise the log's bytes are kept if there is an allocator. With `is_shown`, progress is shown.
    pub fn new(is_shown: bool, size: Option<u64>, keeps: Option<Global>) -> Self {
        SourceStats {
            len: 0,
            ends_line: true,
            has_input: false,
            kept: match (size, keeps) {
                (None, Some(alloc)) => Some(Vec::new(alloc)),
                _ => None,
            },
            progress: Progress {
                is_shown,
                size,
                next: MIN_PROGRESS_SIZE,
                is_written: false,
            },
        }
    }

    /// Processes the next bytes, and shows the progress. At the end of the log, `bytes` is empty.
    pub fn take(&mut self, rt: &HostRuntime, bytes: &[u8]) {
        let [.., last] = bytes else {
            self.progress.pass(rt, None);
            return;
        };
        for byte in bytes {
            if self.has_input {
                break;
            }
            self.has_input = self.ends_line && matches!(*byte, b'>' | b't' | b'p' | b'k' | b's');
            self.ends_line = *byte == b'\n';
        }
        self.ends_line = *last == b'\n';
        self.len = self.len.saturating_add(bytes.len() as u64);
        self.progress.pass(rt, Some(self.len));
        let Some(kept) = &mut self.kept else {
            return;
        };
        let is_short = kept.len().saturating_add(bytes.len()) <= MAX_KEPT;
        if !is_short || kept.extend_from_slice(bytes).is_err() {
            self.kept = None;
        }
    }
}
