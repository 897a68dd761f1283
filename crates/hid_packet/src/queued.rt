//! Entries of an outbox: a packet, or a message whose packets are created when they are removed.
ghost use Rattle.std.specs.Prelude.{◌≡◌, ◌+◌, ◌<◌, ◌≤◌, ◌++◌, ◌∷◌, [], length, take, drop};
ghost use Rattle.hid_packet.specs.Message.{continuation_packet, initialization_packet};
ghost use Rattle.hid_packet.specs.Queue.{HasPacketLeft};
ghost use Rattle.hid_packet.specs.Message.{packets_left, CanCarry};
ghost use Rattle.hid_packet.specs.Packet.{CONT_PACKET_DATA, INIT_PACKET_DATA};

use crate::fragments::{NextPacket, write_cont_packet, write_init_packet};
use crate::limits::{CONT_PACKET_DATA, INIT_PACKET_DATA};
use crate::packet::Packet;
use crate::ring::RingBuffer;

/// The rest of a message: its next packet, and the number of its bytes in the ring buffer.
#[derive(Clone, Copy)]
pub(crate) struct QueuedMessage {
    pub(crate) cid: u32,
    pub(crate) due: NextPacket,
    pub(crate) left: u16,
}

/// An entry of an outbox.
#[derive(Clone, Copy)]
pub(crate) enum Queued {
    /// A packet, whose 64 bytes are in the ring buffer.
    Whole,
    /// A message, or the rest of a message after some of its packets were removed.
    Part(QueuedMessage),
}

impl Default for Queued {
    fn default() -> Self {
        Queued::Whole
    }
}

impl QueuedMessage {
    /// Creates the next packet of the message, and removes its data bytes from the ring buffer.
    pub(crate) fn next_packet(&mut self, ring: &mut RingBuffer) -> Packet
        requires due { HasPacketLeft self.old.due self.old.left }
        requires there { self.old.left ≤ length ring.old }
        ensures packet { packets_left self.old.cid self.old.due (take self.old.left ring.old)
            ≡ result.0 ∷ packets_left self.new.cid self.new.due (take self.new.left ring.new) }
        ensures others { drop self.new.left ring.new ≡ drop self.old.left ring.old }
        ensures there { length ring.new + self.old.left ≡ length ring.old + self.new.left }
        ensures last { self.new.left ≡ 0 → packets_left self.new.cid self.new.due [] ≡ [] }
        ensures due { 0 < self.new.left → HasPacketLeft self.new.due self.new.left }
    {
        let left = self.left;
        let mut packet = [0; 64];
        match self.due {
            NextPacket::Initialization(cmd) => {
                let part = INIT_PACKET_DATA.min(usize::from(left));
                write_init_packet(&mut packet, self.cid, cmd, left, &[]);
                ring.take(&mut packet[7..7 + part]);
                self.due = NextPacket::Continuation(0);
                self.left = left - part as u16;
                Packet(packet)
            }
            NextPacket::Continuation(number) => {
                let part = CONT_PACKET_DATA.min(usize::from(left));
                write_cont_packet(&mut packet, self.cid, number, &[]);
                ring.take(&mut packet[5..5 + part]);
                self.due = NextPacket::Continuation(number + 1);
                self.left = left - part as u16;
                Packet(packet)
            }
        }
    }
}
