//! Sources from which the bytes of a log are read.
ghost use Rattle.std.specs.Prelude.{◌≡◌, ◌<◌, ◌≤◌, ◌+◌, ◌-◌, ◌^◌, [], ◌∷◌, ◌++◌, List, ℕ, Option, Some, length, take, drop, min, is_ok, if◌then◌else◌, ◌||◌, Bool, true, false, Ok, IsTrue, IsOk, IfOk};
ghost use Rattle.std.specs.Io.KnownBytes.{ReadConsumes};
ghost use Rattle.session_log.specs.Lines.{is_empty_read};

use crate::count_failures::CountFailures;
use crate::fault::Failed;
use std::io::Read;

/// A source of bytes.
pub trait Source {
    /// The bytes that haven't been read yet, if known.
    ghost left: { Self → Option (List ℕ) };

    /// Whether a read into a non-empty buffer has returned 0 bytes.
    ghost ended: { Self → Bool };

    /// Number of failed calls.
    ghost failed: { Self → ℕ };

    /// Copies the next bytes to the beginning of `out`, and returns their number. For a non-empty buffer, 0 means the
    /// end of the source. A failed call reads nothing.
    fn get(&mut self, out: &mut [u8]) -> Result<usize, Failed>
        requires { failed self.old < 2 ^ 64 - 1 }
        ensures bound { IfOk result (λ n. n ≤ length out.new) }
        ensures bytes { ReadConsumes (left self.old) (left self.new) result out.new }
        ensures end { ended self.new ≡ (ended self.old || is_empty_read result (length out.new)) }
        ensures counted { failed self.new ≡ (if is_ok result then failed self.old else failed self.old + 1) };

    /// Returns the number of failed calls so far.
    fn failures(&self) -> u64
        ensures { result ≡ failed self.now };
}

/// A source that reads from a slice, and never fails.
#[derive(Drop)]
pub struct SliceIn<'a> {
    rest: &'a [u8],
    ended: bool,
}

impl<'a> SliceIn<'a> {
    /// Creates a source that reads these bytes.
    pub fn new(bytes: &'a [u8]) -> Self
        ensures left { ⟦<SliceIn<'a> as Source>⟧.left result ≡ Some bytes.now }
        ensures open { ⟦<SliceIn<'a> as Source>⟧.ended result ≡ false }
        ensures none { ⟦<SliceIn<'a> as Source>⟧.failed result ≡ 0 }
    {
        SliceIn {
            rest: bytes,
            ended: false,
        }
    }
}

impl Source for SliceIn<'_> {
    ghost left = { λ s. Some s.rest.now };

    ghost ended = { λ s. s.ended };

    ghost failed = { λ _. 0 };

    fn get(&mut self, out: &mut [u8]) -> Result<usize, Failed>
        requires { 0 < 2 ^ 64 - 1 }
        ensures bound { IfOk result (λ n. n ≤ length out.new) }
        ensures bytes { ReadConsumes (Some self.old.rest.now) (Some self.new.rest.now)
            result out.new }
        ensures end { self.new.ended ≡ (self.old.ended || is_empty_read result (length out.new)) }
        ensures counted { 0 ≡ (if is_ok result then 0 else 0 + 1) }
        // As many bytes are read as fit into the buffer. The rest of the buffer is unchanged.
        ensures most { result ≡ Ok (min (length self.old.rest.now) (length out.old)) }
        ensures rest { drop (length self.old.rest.now) out.new ≡ drop (length self.old.rest.now) out.old }
    {
        let n = self.rest.len().min(out.len());
        out[..n].copy_from_slice(&self.rest[..n]);
        self.rest = &self.rest[n..];
        self.ended = self.ended || n == 0 && !out.is_empty();
        Ok(n)
    }

    fn failures(&self) -> u64 {
        0
    }
}

/// A source that reads from any reader of the standard library. Each call of `get` is one read.
#[derive(Drop)]
pub struct FromRead<R> {
    inner: CountFailures<R>,
    ended: bool,
}

impl<R: Read> FromRead<R> {
    /// Creates a source that reads from this reader.
    pub fn new(inner: R) -> Self
        ensures left { ⟦<FromRead<R> as Source>⟧.left result ≡ R.remaining inner }
        ensures open { ⟦<FromRead<R> as Source>⟧.ended result ≡ false }
        ensures none { ⟦<FromRead<R> as Source>⟧.failed result ≡ 0 }
    {
        FromRead {
            inner: CountFailures::new(inner),
            ended: false,
        }
    }
}

impl<R: Read> Source for FromRead<R> {
    ghost left = { λ s. R.remaining s.inner.inner };

    ghost ended = { λ s. s.ended };

    ghost failed = { λ s. s.inner.failures };

    fn get(&mut self, out: &mut [u8]) -> Result<usize, Failed> {
        let n = self.inner.read(out)?;
        self.ended = self.ended || n == 0 && !out.is_empty();
        Ok(n)
    }

    fn failures(&self) -> u64 {
        self.inner.failures()
    }
}
