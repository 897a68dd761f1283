ghost use Rattle.std.specs.Prelude.{◌≡◌};
ghost use Rattle.hid_packet.specs.Packet.{fields, to_fields, FillsPacket};

use byteorder::{BigEndian, ByteOrder};

/// The size of a packet, in bytes.
pub const PACKET_SIZE: usize = 64;

/// The broadcast channel, on which a host requests a channel ID.
pub const BROADCAST: u32 = 0xffff_ffff;

/// A CTAPHID packet, which is sent over USB in either direction. Any 64 bytes are a packet.
#[derive(Clone, Copy, Debug, PartialEq, Eq)]
pub struct Packet(pub [u8; 64]);

impl Default for Packet {
    /// Returns a packet that consists of zeros.
    fn default() -> Self {
        Packet([0; 64])
    }
}

/// The fields of a packet (CTAP 2.1, section 11.2.4). The data bytes are borrowed from the packet.
#[derive(Clone, Copy, Debug)]
pub enum View<'a> {
    /// An initialization packet: the channel, the command without bit 7, the length of the whole
    /// message in bytes, and 57 data bytes.
    Start {
        cid: u32,
        cmd: u8,
        len: u16,
        part: &'a [u8],
    },
    /// A continuation packet: the channel, the sequence number from 0 to 127, and 59 data bytes.
    More {
        cid: u32,
        seq: u8,
        part: &'a [u8],
    },
}

impl Packet {
    /// Returns the fields of the packet. Any 64 bytes are valid: bit 7 of byte 4 distinguishes initialization packets
    /// from continuation packets.
    #[tactic(auto, unfolding(crate::specs::Packet::channel, crate::specs::Packet::is_initialization, crate::specs::Packet::command, crate::specs::Packet::message_length, crate::specs::Packet::initialization_data, crate::specs::Packet::sequence, crate::specs::Packet::continuation_data))]
    pub fn view(&self) -> View<'_>
        ensures fields { to_fields result ≡ fields self.now.0 }
        ensures data { FillsPacket (to_fields result) }
    {
        let cid = BigEndian::read_u32(&self.0);
        let kind = self.0[4];
        if kind < 128 {
            View::More {
                cid,
                seq: kind,
                part: &self.0[5..],
            }
        } else {
            View::Start {
                cid,
                cmd: kind - 128,
                len: BigEndian::read_u16(&self.0[5..]),
                part: &self.0[7..],
            }
        }
    }
}
