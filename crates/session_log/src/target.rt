//! Targets to which the bytes of a log are written.
ghost use Rattle.std.specs.Prelude.{◌≡◌, ◌<◌, ◌≤◌, ◌+◌, ◌-◌, ◌^◌, ◌↔◌, [], ◌∷◌, ◌++◌, List, ℕ, Option, Some, length, take, drop, min, is_ok, if◌then◌else◌, IsErr, IfOk, OnOk, OnErr, MatchResult};
ghost use Rattle.std.specs.Io.KnownBytes.{Appends, WriteAppends};
ghost use Rattle.session_log.specs.Lines.{WriteFails, WritesAll, WritesText};

use crate::count_failures::CountFailures;
use crate::fault::Failed;
use std::io::Write;

/// A target of bytes.
pub trait Target {
    /// The bytes that were written so far, if known.
    ghost taken: { Self → Option (List ℕ) };

    /// Number of failed calls.
    ghost failed: { Self → ℕ };

    /// Writes the beginning of `piece`, and returns the number of bytes written: at least one if `piece` is not empty.
    /// A failed call writes nothing.
    fn put(&mut self, piece: &[u8]) -> Result<usize, Failed>
        requires { failed self.old < 2 ^ 64 - 1 }
        ensures bound { IfOk result (λ n. n ≤ length piece.now) }
        ensures some { 0 < length piece.now → IfOk result (λ n. 0 < n) }
        ensures bytes { WriteAppends (taken self.old) (taken self.new) result piece.now }
        ensures counted { failed self.new ≡ (if is_ok result then failed self.old else failed self.old + 1) };

    /// Returns the number of failed calls so far.
    fn failures(&self) -> u64
        ensures { result ≡ failed self.now };
}

/// Writes the whole piece, in as many calls as needed. After a failure, which is not retried, only a part of the piece
/// was written.
pub fn put_all<T: Target>(writer: &mut T, piece: &[u8]) -> Result<(), Failed>
    requires { T.failed writer.old < 2 ^ 64 - 1 }
    ensures { WritesText T.taken T.failed (writer.old, writer.new) piece.now result }
{
    let mut rest = piece;
    while !rest.is_empty() {
        match writer.put(rest) {
            Ok(n) => rest = rest.split_at(n).1,
            Err(failed) => return Err(failed),
        }
    }
    Ok(())
}

/// A target that writes to a borrowed buffer. It writes as many bytes as fit, and fails only for a non-empty piece if
/// the buffer is full.
#[derive(Drop)]
pub struct SliceOut<'a> {
    buffer: &'a mut [u8],
    len: usize,
    failures: u64,
    ghost fits: { len ≤ length buffer.now },
}

impl<'a> SliceOut<'a> {
    /// Creates a target that writes to this buffer, from the beginning.
    pub fn new(buffer: &'a mut [u8]) -> Self
        ensures none { take result.len result.buffer.now ≡ [] }
        ensures same { drop result.len result.buffer.now ≡ buffer.entry.now }
        ensures same_reference { result.buffer.ghost_name ≡ buffer.entry.ghost_name }
        ensures unfailed { ⟦<SliceOut<'a> as Target>⟧.failed result ≡ 0 }
    {
        SliceOut {
            buffer,
            len: 0,
            failures: 0,
        }
    }

    /// Returns the bytes that were written.
    pub fn written(&self) -> &[u8]
        ensures { result.now ≡ take self.now.len self.now.buffer.now }
    {
        &self.buffer[..self.len]
    }
}

impl Target for SliceOut<'_> {
    ghost taken = { λ s. Some (take s.len s.buffer.now) };

    ghost failed = { λ s. s.failures };

    fn put(&mut self, piece: &[u8]) -> Result<usize, Failed>
        requires { self.old.failures < 2 ^ 64 - 1 }
        ensures bound { IfOk result (λ n. n ≤ length piece.now) }
        ensures some { 0 < length piece.now → IfOk result (λ n. 0 < n) }
        ensures bytes { WriteAppends (Some (take self.old.len self.old.buffer.now))
            (Some (take self.new.len self.new.buffer.now)) result piece.now }
        ensures counted { self.new.failures
            ≡ (if is_ok result then self.old.failures else self.old.failures + 1) }
        // As many bytes are written as fit. If no byte fits, the call fails. The rest of the buffer is unchanged.
        ensures most { IfOk result (λ n.
            n ≡ min (length piece.now) (length self.old.buffer.now - self.old.len)) }
        ensures full { IsErr result
            ↔ ((0 < length piece.now) × (self.old.len ≡ length self.old.buffer.now)) }
        ensures moved { MatchResult result
            (λ n. self.new.len ≡ self.old.len + n) (λ _. self.new.len ≡ self.old.len) }
        ensures rest { drop self.new.len self.new.buffer.now ≡ drop self.new.len self.old.buffer.now }
        ensures same_reference { self.new.buffer.ghost_name ≡ self.old.buffer.ghost_name }
    {
        let n = piece.len().min(self.buffer.len() - self.len);
        if n == 0 && !piece.is_empty() {
            self.failures += 1;
            return Err(Failed);
        }
        self.buffer[self.len..self.len + n].copy_from_slice(&piece[..n]);
        self.len += n;
        Ok(n)
    }

    fn failures(&self) -> u64 {
        self.failures
    }
}

/// A target that writes to any writer of the standard library. Each call of `put` is one write. A write of 0 bytes of a
/// non-empty piece is a failure.
#[derive(Drop)]
pub struct ToWrite<W> {
    inner: CountFailures<W>,
}

impl<W: Write> ToWrite<W> {
    /// Creates a target that writes to this writer.
    pub fn new(inner: W) -> Self
        ensures taken { ⟦<ToWrite<W> as Target>⟧.taken result ≡ W.contents inner }
        ensures none { ⟦<ToWrite<W> as Target>⟧.failed result ≡ 0 }
    {
        ToWrite {
            inner: CountFailures::new(inner),
        }
    }
}

impl<W: Write> Target for ToWrite<W> {
    ghost taken = { λ s. W.contents s.inner.inner };

    ghost failed = { λ s. s.inner.failures };

    fn put(&mut self, piece: &[u8]) -> Result<usize, Failed> {
        self.inner.write(piece)
    }

    fn failures(&self) -> u64 {
        self.inner.failures()
    }
}
