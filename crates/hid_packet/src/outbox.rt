ghost use Rattle.std.specs.Prelude.{◌≡◌, ℕ, ◌+◌, ◌<◌, ◌≤◌, ◌↔◌, ◌++◌, ◌∷◌, [], List, length, IsTrue, MatchOption};
ghost use Rattle.std.specs.Iterator.{YieldsFirstBy, item_count};
ghost use Rattle.std.specs.List.{remove};
ghost use Rattle.arrayvec.specs.ArrayVec.{array_vec_len};
ghost use Rattle.hid_packet.specs.Message.{message_packets};
ghost use Rattle.hid_packet.specs.Queue.{queued_packets, AreEntriesOf};
ghost use Rattle.hid_packet.specs.Packet.{MAX_MESSAGE_LEN, OUTBOX_CAPACITY};

use crate::fragments::{NextPacket, packets_for, write_init_packet};
use crate::limits::{INIT_PACKET_DATA, OUTBOX_CAPACITY};
use crate::packet::Packet;
use crate::queued::{Queued, QueuedMessage};
use crate::ring::RingBuffer;
use arrayvec::ArrayVec;
use std::marker::Model;

/// The entries of an outbox, the oldest first.
type Entries = ArrayVec<Queued, OUTBOX_CAPACITY>;

/// A queue of packets to send, with capacity for [`OUTBOX_CAPACITY`] packets. It stores messages, and creates a packet
/// of a message when the packet is removed. Allocates nothing.
#[derive(Drop)]
pub struct Outbox {
    entries: Entries,
    ring: RingBuffer,
    len: usize,
}

// In contracts, an outbox is the list of its packets, in order.
impl Model for Outbox {
    ghost use Rattle.std.specs.Prelude.{ℕ, List};
    ghost use Rattle.hid_packet.specs.Queue.{queued_packets, IsQueued};

    ghost Value = { List (List ℕ) };

    ghost view = { λ o. queued_packets o.entries.items o.ring };

    ghost invariant = { λ o. IsQueued o.entries.items o.ring o.len };
}

impl Outbox {
    /// Returns an empty outbox.
    pub fn new() -> Self
        ensures { result ≡ [] }
    {
        Outbox {
            entries: ArrayVec::new(),
            ring: RingBuffer::new(),
            len: 0,
        }
    }

    /// Returns the number of queued packets.
    pub fn len(&self) -> usize
        ensures count { result ≡ length self.now }
        ensures limit { length self.now ≤ OUTBOX_CAPACITY }
    {
        self.len
    }

    /// Returns whether no packet is queued.
    pub fn is_empty(&self) -> bool
        ensures { IsTrue result ↔ (self.now ≡ []) }
    {
        self.len() == 0
    }

    /// Removes and returns the first packet, if any.
    pub fn pop(&mut self) -> Option<Packet>
        ensures { MatchOption result ((self.old ≡ []) × (self.new ≡ [])) (λ packet. self.old ≡ packet.0 ∷ self.new) }
    {
        self.next()
    }

    /// Appends a packet.
    pub fn put_packet(&mut self, packet: Packet)
        requires { length self.old < OUTBOX_CAPACITY }
        ensures { self.new ≡ self.old ++ packet.0 ∷ [] }
    {
        self.entries.push(Queued::Whole);
        self.ring.put(&packet.0);
        self.len += 1;
    }

    /// Appends the packets of the message `bytes`, with the command `cmd` on the channel `cid`. The last packet is
    /// padded with zeros.
    pub fn put_message(&mut self, cid: u32, cmd: u8, bytes: &[u8])
        requires short { length bytes.now ≤ MAX_MESSAGE_LEN }
        requires command { cmd < 128 }
        requires space { length self.old + length (message_packets cid cmd bytes.now) ≤ OUTBOX_CAPACITY }
        ensures { self.new ≡ self.old ++ message_packets cid cmd bytes.now }
    {
        let left = bytes.len() as u16;
        if bytes.len() <= INIT_PACKET_DATA {
            // The packet of a short message is created here, because storing the message for later takes longer.
            let mut packet = [0; 64];
            write_init_packet(&mut packet, cid, cmd, left, bytes);
            return self.put_packet(Packet(packet));
        }
        let due = NextPacket::Initialization(cmd);
        self.entries
            .push(Queued::Part(QueuedMessage { cid, due, left }));
        self.ring.put(bytes);
        self.len += usize::from(packets_for(left));
    }
}

/// Returns the packets in order, and removes each one.
impl Iterator for Outbox {
    type Item = Packet;

    ghost next_gives = { YieldsFirstBy (λ packet. packet.0) (λ waits. waits) };

    ghost remaining = { item_count (λ waits. waits) };

    fn next(&mut self) -> Option<Packet> {
        let entry = match self.entries.as_slice() {
            [] => return None,
            [entry, ..] => *entry,
        };
        self.len -= 1;
        match entry {
            Queued::Whole => {
                let mut packet = [0; 64];
                self.entries.remove(0);
                self.ring.take(&mut packet);
                Some(Packet(packet))
            }
            Queued::Part(mut message) => {
                let packet = message.next_packet(&mut self.ring);
                // The entry is removed with its last packet.
                if message.left > 0 {
                    self.entries[0] = Queued::Part(message);
                    return Some(packet);
                }
                self.entries.remove(0);
                Some(packet)
            }
        }
    }
}
