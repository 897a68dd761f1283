//! Wrappers for readers and writers of the standard library, which count failed calls.
ghost use Rattle.std.specs.Prelude.{◌≡◌, ◌<◌, ◌≤◌, ◌+◌, ◌-◌, ◌^◌, length, is_ok, if◌then◌else◌, IfOk};
ghost use Rattle.std.specs.Io.KnownBytes.{ReadConsumes, WriteAppends};

use crate::fault::Failed;
use std::io::{Read, Write};

/// A wrapper for a reader or writer, with the number of failed calls. A contract can't distinguish one failed call of a
/// reader or writer from two. Therefore it is reviewed and tested, but not proved, that `read` and `write` call the
/// reader or writer once.
#[derive(Drop)]
pub(crate) struct CountFailures<S> {
    inner: S,
    failures: u64,
}

impl<S> CountFailures<S> {
    /// Creates a wrapper with the count 0.
    pub(crate) fn new(inner: S) -> Self
        ensures same { result.inner ≡ inner }
        ensures none { result.failures ≡ 0 }
    {
        CountFailures { inner, failures: 0 }
    }

    /// Returns the number of failed calls.
    pub(crate) fn failures(&self) -> u64
        ensures { result ≡ self.now.failures }
    {
        self.failures
    }
}

impl<R: Read> CountFailures<R> {
    /// Calls `read` once.
    pub(crate) fn read(&mut self, out: &mut [u8]) -> Result<usize, Failed>
        requires { self.old.failures < 2 ^ 64 - 1 }
        ensures bound { IfOk result (λ n. n ≤ length out.new) }
        ensures len { length out.new ≡ length out.old }
        ensures bytes { ReadConsumes (R.remaining self.old.inner) (R.remaining self.new.inner) result out.new }
        ensures counted { self.new.failures ≡ (if is_ok result then self.old.failures else self.old.failures + 1) }
    {
        match self.inner.read(out) {
            Ok(n) => Ok(n),
            Err(_) => {
                self.failures += 1;
                Err(Failed)
            }
        }
    }
}

impl<W: Write> CountFailures<W> {
    /// Calls `write` of the writer once. A result of 0 for a non-empty piece is a failure.
    pub(crate) fn write(&mut self, piece: &[u8]) -> Result<usize, Failed>
        requires { self.old.failures < 2 ^ 64 - 1 }
        ensures bound { IfOk result (λ n. n ≤ length piece.now) }
        ensures some { 0 < length piece.now → IfOk result (λ n. 0 < n) }
        ensures bytes { WriteAppends (W.contents self.old.inner) (W.contents self.new.inner) result piece.now }
        ensures counted { self.new.failures ≡ (if is_ok result then self.old.failures else self.old.failures + 1) }
    {
        match self.inner.write(piece) {
            Ok(n) if n > 0 || piece.is_empty() => Ok(n),
            _ => {
                self.failures += 1;
                Err(Failed)
            }
        }
    }
}
