//! A target that writes to the caller's buffer.
ghost use Rattle.std.specs.Prelude.{◌≡◌, ◌<◌, ◌≤◌, ◌+◌, ◌-◌, ◌^◌, [], ◌∷◌, List, ℕ, Option, Some, length, take, is_ok, if◌then◌else◌, IfOk};
ghost use Rattle.std.specs.Io.KnownBytes.{WriteAppends};

use session_log::{Failed, Target};

/// A target that fills the caller's buffer from its beginning. In contracts, the bytes taken are the ghost name of the
/// borrow, followed by the bytes written. So after a call that only appends bytes, a contract can state that the target
/// still writes to the same buffer. After a failed call, the buffer is full. The contract of `SliceOut` states neither
/// of these two properties.
#[derive(Drop)]
pub struct BufferTarget<'a> {
    buffer: &'a mut [u8],
    len: usize,
    failures: u64,
    ghost fits: { len ≤ length buffer.now },
    ghost full: { 0 < failures → len ≡ length buffer.now },
}

impl<'a> BufferTarget<'a> {
    /// Returns a target that writes to this buffer.
    pub fn new(buffer: &'a mut [u8]) -> Self
        ensures same_reference { result.buffer.ghost_name ≡ buffer.entry.ghost_name }
        ensures none { result.len ≡ 0 }
        ensures unfailed { result.failures ≡ 0 }
    {
        BufferTarget {
            buffer,
            len: 0,
            failures: 0,
        }
    }

    /// Returns the number of bytes written.
    pub fn len(&self) -> usize
        ensures { result ≡ self.now.len }
    {
        self.len
    }
}

impl Target for BufferTarget<'_> {
    ghost taken = { λ s. Some (s.buffer.ghost_name ∷ take s.len s.buffer.now) };

    ghost failed = { λ s. s.failures };

    fn put(&mut self, piece: &[u8]) -> Result<usize, Failed> {
        let n = piece.len().min(self.buffer.len() - self.len);
        if n == 0 && !piece.is_empty() {
            self.failures += 1;
            return Err(Failed);
        }
        self.buffer[self.len..self.len + n].copy_from_slice(&piece[..n]);
        self.len += n;
        Ok(n)
    }

    fn failures(&self) -> u64 {
        self.failures
    }
}
