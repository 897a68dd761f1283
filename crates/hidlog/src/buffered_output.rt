//! Output that is buffered while complete lines of the log have been read but not yet played.
ghost use Rattle.std.specs.Prelude.{◌≡◌, ◌<◌, ◌≤◌, ◌-◌, ◌^◌, ◌+◌, [], List, ℕ, length, drop, vec_len, is_ok, if◌then◌else◌, OnOk, OnErr};
ghost use Rattle.std.specs.Io.KnownBytes.{Keeps, append_known};
ghost use Rattle.hidlog.specs.Program.{FlushesPending};

use session_log::{Failed, LogFault, Target};
use std::cell::Cell;

/// Capacity of the buffer in bytes.
const OUTPUT_BUFFER_LEN: usize = 8192;

/// The kind of the next complete line that was read but not yet played. Lines that begin with `<` or `=` are skipped.
#[derive(Clone, Copy)]
pub enum Lookahead {
    /// None.
    Nothing,
    /// A comment or an empty line.
    Comment,
    /// An input, or an invalid line.
    Input,
}

/// Where the last complete input line or invalid line begins, and the last comment after it. Both are distances from
/// the end of the bytes read, or 0 if there is no such line.
#[derive(Clone, Copy)]
pub struct LineBoundaries {
    input: usize,
    /// The last comment or empty line after that line.
    comment: usize,
}

impl LineBoundaries {
    /// Returns the boundaries of the lines in these bytes, without a line that began before the first byte.
    pub fn of(bytes: &[u8]) -> Self {
        let mut last = LineBoundaries {
            input: 0,
            comment: 0,
        };
        let (mut first, mut is_whole) = (b'<', false);
        for len in 0..bytes.len() {
            let byte = bytes[bytes.len() - 1 - len];
            if is_whole && byte == b'\n' {
                // The first byte of a line determines its kind. In an empty line, the first byte is the line feed.
                match first {
                    b'<' | b'=' => {}
                    b'#' | b'\n' if last.comment > 0 => {}
                    b'#' | b'\n' => last.comment = len,
                    _ => last.input = len,
                }
            }
            is_whole = is_whole || byte == b'\n';
            if last.input > 0 {
                break;
            }
            first = byte;
        }
        last
    }

    /// Returns how many of the last `len` bytes precede the next line for which there is a boundary, and the kind of
    /// this line. Without such a line, returns `len`.
    pub fn next(&self, len: usize) -> (usize, Lookahead) {
        if 0 < self.input && self.input <= len {
            (len - self.input, Lookahead::Input)
        } else if 0 < self.comment && self.comment <= len {
            (len - self.comment, Lookahead::Comment)
        } else {
            (len, Lookahead::Nothing)
        }
    }
}

/// Which output is buffered while there is a complete line that was read but not yet played.
#[derive(Clone, Copy)]
pub enum FlushPolicy {
    /// No output is buffered: used by `live`, which responds line by line, and by `check`.
    Nothing,
    /// Output is buffered while another input was read but not yet played: used by `show`.
    UntilNextInput,
    /// All output is buffered: used by `replay` and `quiet`.
    All,
}

/// A target that may buffer its output.
pub trait Output: Target {
    ghost use Rattle.std.specs.Prelude.{◌≡◌, ◌<◌, ◌-◌, ◌^◌, ◌+◌, [], List, ℕ, length, is_ok, if◌then◌else◌, OnOk, OnErr};
    ghost use Rattle.std.specs.Io.KnownBytes.{Keeps};

    /// The buffered bytes.
    ghost waits: { Self → List ℕ };

    /// Flushes the buffer. A failed write is not retried.
    fn flush_buffer(&mut self) -> Result<(), Failed>
        requires { Self.failed self.old < 2 ^ 64 - 1 }
        ensures kept { Keeps (Self.taken self.old) (Self.taken self.new) }
        ensures none { OnOk result (waits self.new ≡ []) }
        ensures some { OnErr result (0 < length (waits self.new)) }
        ensures counted { Self.failed self.new
            ≡ (if is_ok result then Self.failed self.old else Self.failed self.old + 1) };
}

/// Flushes the buffer unless `answer` is a write error. Returns `answer`, or a write error if flushing fails.
pub fn flush_then<O: Output>(output: &mut O, answer: Result<(), LogFault>) -> Result<(), LogFault>
    ensures { FlushesPending O.taken O.failed O.waits answer (output.old, output.new) result }
{
    if let Err(LogFault::Write) = answer {
        return answer;
    }
    if output.failures() == u64::MAX {
        return Err(LogFault::Write);
    }
    match output.flush_buffer() {
        Ok(()) => answer,
        Err(_) => Err(LogFault::Write),
    }
}

/// A target that writes to `inner`, and buffers output while there is a complete line that was read but not yet played.
#[derive(Drop)]
pub struct BufferedOutput<'a, T> {
    pub inner: T,
    pub ahead: &'a Cell<Lookahead>,
    pub flush_policy: FlushPolicy,
    pub bytes: Vec<u8>,
    /// Number of bytes of the buffer that were already written to `inner`.
    pub at: usize,
    ghost within: { at ≤ vec_len bytes },
}

impl<T: Target> Target for BufferedOutput<'_, T> {
    ghost taken = { λ s. append_known (T.taken s.inner) (drop s.at s.bytes.items) };

    ghost failed = { λ s. T.failed s.inner };

    fn put(&mut self, piece: &[u8]) -> Result<usize, Failed> {
        let lies_ahead = match (self.ahead.get(), self.flush_policy) {
            (Lookahead::Nothing, _)
            | (_, FlushPolicy::Nothing)
            | (Lookahead::Comment, FlushPolicy::UntilNextInput) => false,
            _ => true,
        };
        if lies_ahead
            && self.bytes.len().saturating_add(piece.len()) <= OUTPUT_BUFFER_LEN
            && self.bytes.extend_from_slice(piece).is_ok()
        {
            return Ok(piece.len());
        }
        self.flush_buffer()?;
        self.inner.put(piece)
    }

    fn failures(&self) -> u64 {
        self.inner.failures()
    }
}

impl<T: Target> Output for BufferedOutput<'_, T> {
    ghost waits = { λ s. drop s.at s.bytes.items };

    fn flush_buffer(&mut self) -> Result<(), Failed> {
        'waiting: while self.at < self.bytes.len() {
            self.at += self.inner.put(self.bytes.as_slice().split_at(self.at).1)?;
        }
        self.bytes.clear();
        self.at = 0;
        Ok(())
    }
}
