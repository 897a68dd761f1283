//! A ring buffer, used as a queue of bytes.
ghost use Rattle.std.specs.Prelude.{◌≡◌, ◌+◌, ◌-◌, ◌*◌, ◌%◌, ◌<◌, ◌≤◌, ◌++◌, [], length, min, take, drop};
ghost use Rattle.hid_packet.specs.Packet.{RING_SIZE};

use crate::limits::OUTBOX_CAPACITY;
use std::marker::Model;

/// Capacity in bytes: 64 for each packet in a full outbox.
const RING_SIZE: usize = 64 * OUTBOX_CAPACITY;

/// A queue of at most `RING_SIZE` bytes.
#[derive(Drop)]
pub(crate) struct RingBuffer {
    bytes: [u8; RING_SIZE],
    first: usize,
    len: usize,
}

// In contracts, a ring buffer is the list of the queued bytes.
impl Model for RingBuffer {
    ghost use Rattle.std.specs.Prelude.{◌≡◌, ℕ, ◌<◌, ◌≤◌, List, length};
    ghost use Rattle.hid_packet.specs.Queue.{window};
    ghost use Rattle.hid_packet.specs.Packet.{RING_SIZE};

    ghost Value = { List ℕ };

    ghost view = { λ r. window r.first r.len r.bytes };

    ghost invariant = { λ r. (r.first < RING_SIZE) × (r.len ≤ RING_SIZE) × (length r.bytes ≡ RING_SIZE) };
}

impl RingBuffer {
    /// Returns an empty ring buffer.
    pub(crate) fn new() -> Self
        ensures { result ≡ [] }
    {
        RingBuffer {
            bytes: [0; RING_SIZE],
            first: 0,
            len: 0,
        }
    }

    /// Appends bytes. Bytes that don't fit before the end of the array are stored at its beginning.
    pub(crate) fn put(&mut self, bytes: &[u8])
        requires { length self.old + length bytes.now ≤ RING_SIZE }
        ensures { self.new ≡ self.old ++ bytes.now }
    {
        let end = (self.first + self.len) % RING_SIZE;
        let straight = RING_SIZE - end;
        self.len += bytes.len();
        if bytes.len() <= straight {
            self.bytes[end..end + bytes.len()].copy_from_slice(bytes);
            return;
        }
        let (front, back) = bytes.split_at(straight);
        self.bytes[end..end + front.len()].copy_from_slice(front);
        self.bytes[..back.len()].copy_from_slice(back);
    }

    /// Fills `out` with the first bytes, and removes these bytes from the ring buffer.
    pub(crate) fn take(&mut self, out: &mut [u8])
        requires { length out.old ≤ length self.old }
        ensures taken { out.new ≡ take (length out.old) self.old }
        ensures left { self.new ≡ drop (length out.old) self.old }
    {
        let len = out.len();
        let first = self.first;
        let straight = RING_SIZE - first;
        self.first = (first + len) % RING_SIZE;
        self.len -= len;
        if len <= straight {
            out.copy_from_slice(&self.bytes[first..first + len]);
            return;
        }
        let (front, back) = out.split_at_mut(straight);
        front.copy_from_slice(&self.bytes[first..first + front.len()]);
        back.copy_from_slice(&self.bytes[..back.len()]);
    }
}
