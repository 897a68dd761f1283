//! The bytes of a stream that were read last.
ghost use Rattle.std.specs.Prelude.{◌≡◌, ◌<◌, ◌≤◌, ◌+◌, [], ◌++◌, length, take, drop, min, vec_len, IfOk, OnOk, OnErr};
ghost use Rattle.std.specs.Io.KnownBytes.{Consumes, Keeps, IsAtEnd, prepend_known};
ghost use Rattle.hidlog.specs.Program.{unread};

use crate::split::find_byte;
use std::alloc::{AllocError, Global};
use std::io::{self, Read};

/// Capacity in bytes.
const RECENT_CAPACITY: usize = 8192;

/// Number of consumed bytes that are kept for the next read. At most 256 bytes of a line are consumed, so an invalid
/// line is kept from its first byte on.
const KEPT_LEN: usize = 4096;

/// The bytes of a stream that were read last: consumed bytes, followed by unread bytes.
#[derive(Drop)]
pub struct RecentBytes {
    held: Vec<u8>,
    at: usize,
    end: usize,
    forgot: bool,
    ghost size: { vec_len held ≡ 8192 },
    ghost order: { at ≤ end },
    ghost fits: { end ≤ 8192 },
}

/// Reads once, and stores the bytes at offset `end` of the buffer.
fn read_after<R: Read>(stream: &mut R, held: &mut Vec<u8>, end: usize) -> io::Result<usize>
    requires { end ≤ vec_len held.old }
    ensures len { vec_len held.new ≡ vec_len held.old }
    ensures bound { IfOk result (λ n. end + n ≤ vec_len held.new) }
    ensures bytes { IfOk result (λ n. Consumes (R.remaining stream.old) (R.remaining stream.new) (take n (drop end held.new.items))) }
    ensures end { IfOk result (λ n. n ≡ 0 → end < vec_len held.old → IsAtEnd (R.remaining stream.new)) }
    ensures err { OnErr result (Keeps (R.remaining stream.old) (R.remaining stream.new)) }
{
    stream.read(held.as_mut_slice().split_at_mut(end).1)
}

impl RecentBytes {
    /// Returns an empty buffer.
    pub fn new(alloc: Global) -> Result<Self, AllocError>
        ensures { IfOk result (λ recent. unread recent.held.items recent.at recent.end ≡ []) }
    {
        Ok(RecentBytes {
            held: vec![in alloc; 0; RECENT_CAPACITY]?,
            at: 0,
            end: 0,
            forgot: false,
        })
    }

    /// Returns the bytes that were read but not consumed.
    pub fn unread(&self) -> &[u8]
        ensures { result.now ≡ unread self.now.held.items self.now.at self.now.end }
    {
        self.held
            .as_slice()
            .split_at(self.end)
            .0
            .split_at(self.at)
            .1
    }

    /// Reads once. All bytes in the buffer must have been consumed.
    pub fn fill<R: Read>(&mut self, stream: &mut R) -> io::Result<()>
        requires { unread self.old.held.items self.old.at self.old.end ≡ [] }
        ensures bytes { Keeps (R.remaining stream.old)
            (prepend_known (unread self.new.held.items self.new.at self.new.end) (R.remaining stream.new)) }
        ensures end { OnOk result (unread self.new.held.items self.new.at self.new.end ≡ [] → IsAtEnd (R.remaining stream.new)) }
    {
        self.drop_old();
        let n = read_after(stream, &mut self.held, self.end)?;
        self.end += n;
        Ok(())
    }

    /// Consumes up to `most` unread bytes, as many as fit into `out`. Copies them to `out`, and returns their number.
    #[tactic(auto, using(crate::proofs::Compared::handed_on))]
    pub fn take(&mut self, most: usize, out: &mut [u8]) -> usize
        ensures count { result ≡ min (min (length (unread self.old.held.items self.old.at self.old.end)) (length out.old)) most }
        ensures len { length out.new ≡ length out.old }
        ensures bytes { unread self.old.held.items self.old.at self.old.end
            ≡ take result out.new ++ unread self.new.held.items self.new.at self.new.end }
    {
        let new = self.unread();
        let n = new.len().min(out.len()).min(most);
        out[..n].copy_from_slice(&new[..n]);
        self.at += n;
        n
    }

    /// Returns the lines in the buffer, without a first line whose beginning was dropped.
    pub fn lines(&self) -> &[u8] {
        let read = self.held.as_slice().split_at(self.end).0;
        if self.forgot {
            read.split_at(find_byte(read, b'\n')).1
        } else {
            read
        }
    }

    /// Drops the oldest bytes if there are more than `KEPT_LEN`, and marks the other bytes as consumed.
    fn drop_old(&mut self)
        ensures at { self.new.at ≡ self.new.end }
        ensures space { self.new.end ≤ 4096 }
    {
        if self.end > KEPT_LEN {
            self.held
                .as_mut_slice()
                .copy_within(self.end - KEPT_LEN..self.end, 0);
            self.end = KEPT_LEN;
            self.forgot = true;
        }
        self.at = self.end;
    }
}
