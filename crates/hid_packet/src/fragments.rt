ghost use Rattle.std.specs.Prelude.{◌≡◌, ℕ, ◌+◌, ◌-◌, ◌<◌, ◌≤◌, ◌++◌, ◌∷◌, [], List, length, take, drop};
ghost use Rattle.byteorder.specs.Endian.{big_bytes};
ghost use Rattle.hid_packet.specs.Message.{message_packets, initialization_packet, continuation_packet};
ghost use Rattle.hid_packet.specs.Message.{IsLeast};
ghost use Rattle.hid_packet.specs.Packet.{CONT_PACKET_DATA, INIT_PACKET_DATA, MAX_MESSAGE_LEN};
ghost use Rattle.std.specs.Iterator.{YieldsFirstBy, item_count};

use crate::limits::{CONT_PACKET_DATA, INIT_PACKET_DATA};
use crate::packet::Packet;
use byteorder::{BigEndian, ByteOrder};
use std::marker::Model;

/// Returns the number of packets that carry a message of `len` bytes: one initialization packet with up to 57 data
/// bytes, and as many continuation packets of 59 data bytes as the remaining bytes need. It is at most 129.
pub fn packets_for(len: u16) -> u16
    requires { len ≤ MAX_MESSAGE_LEN }
    ensures some { 1 ≤ result }
    ensures least { IsLeast (result - 1) len }
    ensures written { (cid cmd : ℕ) (bytes : List ℕ) → length bytes ≡ len → length (message_packets cid cmd bytes) ≡ result }
{
    // The number of continuation packets is (len - 57) / 59, rounded up.
    1 + (len + 1) / 59
}

/// Writes an initialization packet with the data bytes `part` to the start of `out`. The bytes of `out` after the data
/// are unchanged.
pub(crate) fn write_init_packet(out: &mut [u8], cid: u32, cmd: u8, len: u16, part: &[u8])
    requires command { cmd < 128 }
    requires space { 7 + length part.now ≤ length out.old }
    ensures { out.new ≡ (((big_bytes 4 cid ++ (cmd + 128) ∷ []) ++ big_bytes 2 len) ++ part.now)
        ++ drop (7 + length part.now) out.old }
{
    BigEndian::write_u32(out, cid);
    out[4] = cmd + 128;
    BigEndian::write_u16(&mut out[5..], len);
    out[7..7 + part.len()].copy_from_slice(part);
}

/// Writes a continuation packet with the data bytes `part` to the start of `out`. The bytes of `out` after the data are
/// unchanged.
pub(crate) fn write_cont_packet(out: &mut [u8], cid: u32, number: u8, part: &[u8])
    requires { 5 + length part.now ≤ length out.old }
    ensures { out.new ≡ ((big_bytes 4 cid ++ number ∷ []) ++ part.now) ++ drop (5 + length part.now) out.old }
{
    BigEndian::write_u32(out, cid);
    out[4] = number;
    out[5..5 + part.len()].copy_from_slice(part);
}

/// Returns an initialization packet with these data bytes, padded with zeros.
fn initialization(cid: u32, cmd: u8, len: u16, part: &[u8]) -> Packet
    requires command { cmd < 128 }
    requires fits { length part.now ≤ INIT_PACKET_DATA }
    ensures { result.0 ≡ initialization_packet cid cmd len part.now }
{
    let mut packet = [0; 64];
    write_init_packet(&mut packet, cid, cmd, len, part);
    Packet(packet)
}

/// Returns a continuation packet with these data bytes, padded with zeros.
fn continuation(cid: u32, number: u8, part: &[u8]) -> Packet
    requires { length part.now ≤ CONT_PACKET_DATA }
    ensures { result.0 ≡ continuation_packet cid number part.now }
{
    let mut packet = [0; 64];
    write_cont_packet(&mut packet, cid, number, part);
    Packet(packet)
}

/// The next packet of a message.
#[derive(Clone, Copy)]
pub(crate) enum NextPacket {
    /// The initialization packet, with this command.
    Initialization(u8),
    /// A continuation packet with this sequence number, if any byte of the message is left.
    Continuation(u8),
}

/// An iterator over the packets of a message, in order. The last packet is padded with zeros.
#[derive(Drop)]
pub struct Fragments<'a> {
    cid: u32,
    due: NextPacket,
    rest: &'a [u8],
}

// In contracts, the iterator is the list of the packets that it hasn't returned yet.
impl<'a> Model for Fragments<'a> {
    ghost use Rattle.std.specs.Prelude.{ℕ, List};
    ghost use Rattle.hid_packet.specs.Message.{packets_left, CanCarry};

    ghost Value = { List (List ℕ) };

    ghost view = { λ s. packets_left s.cid s.due s.rest.now };

    ghost invariant = { λ s. CanCarry s.due s.rest.now };
}

impl<'a> Fragments<'a> {
    /// Returns the packets of the message `bytes` with the command `cmd` on the channel `cid`. [`packets_for`] returns
    /// their number.
    pub fn new(cid: u32, cmd: u8, bytes: &'a [u8]) -> Self
        requires short { length bytes.now ≤ MAX_MESSAGE_LEN }
        requires command { cmd < 128 }
        ensures { result ≡ message_packets cid cmd bytes.now }
    {
        Fragments {
            cid,
            due: NextPacket::Initialization(cmd),
            rest: bytes,
        }
    }
}

impl<'a> Iterator for Fragments<'a> {
    type Item = Packet;

    ghost next_gives = { YieldsFirstBy (λ packet. packet.0) (λ left. left) };

    ghost remaining = { item_count (λ left. left) };

    fn next(&mut self) -> Option<Packet> {
        let left: &'a [u8] = self.rest;
        match self.due {
            NextPacket::Initialization(cmd) => {
                let (part, rest) = left.split_at(INIT_PACKET_DATA.min(left.len()));
                self.due = NextPacket::Continuation(0);
                self.rest = rest;
                Some(initialization(self.cid, cmd, left.len() as u16, part))
            }
            NextPacket::Continuation(_) if left.is_empty() => None,
            NextPacket::Continuation(number) => {
                let (part, rest) = left.split_at(CONT_PACKET_DATA.min(left.len()));
                self.due = NextPacket::Continuation(number + 1);
                self.rest = rest;
                Some(continuation(self.cid, number, part))
            }
        }
    }
}
