//! The CBOR messages of one direction, reassembled from their packets.

use arrayvec::ArrayVec;
use hid_packet::{MAX_MESSAGE_LEN, Packet, View, command};

/// Maximum message length in bytes.
const MESSAGE_BUFFER_LEN: usize = MAX_MESSAGE_LEN as usize;

/// The latest CBOR message of one direction.
#[derive(Drop, Default)]
pub struct Collector {
    cid: u32,
    /// Length of the message in bytes, or 0 if there is none.
    len: u16,
    /// The expected sequence number.
    next: u8,
    /// The bytes received, at most 7609.
    bytes: ArrayVec<u8, MESSAGE_BUFFER_LEN>,
}

impl Collector {
    /// Adds a packet, and returns the CBOR message that it completes, unless the message is empty.
    ///
    /// An initialization packet begins a new message. Of continuation packets, only the expected one on the message's
    /// channel is added. A message of over 7609 bytes isn't collected.
    pub fn add(&mut self, packet: &Packet) -> Option<&[u8]> {
        let part = match packet.view() {
            View::Start {
                cid,
                cmd,
                len,
                part,
            } => {
                let is_kept = cmd == command::CBOR && len <= MAX_MESSAGE_LEN;
                self.cid = cid;
                self.len = if is_kept { len } else { 0 };
                self.next = 0;
                self.bytes.clear();
                part
            }
            View::More { cid, seq, part } => {
                if cid != self.cid || seq != self.next {
                    return None;
                }
                self.next = seq.saturating_add(1);
                part
            }
        };
        if self.len == 0 {
            return None;
        }
        let len = usize::from(self.len);
        let missing = len.saturating_sub(self.bytes.len());
        let more = part.split_at(missing.min(part.len())).0;
        let _ = self.bytes.try_extend_from_slice(more);
        if self.bytes.len() < len {
            return None;
        }
        self.len = 0;
        Some(self.bytes.as_slice())
    }
}
