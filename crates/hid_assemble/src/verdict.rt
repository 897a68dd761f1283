use crate::refusal::Refusal;

/// The verdict on a packet: which packets are sent for it, and what happens to the pending request.
#[derive(Clone, Copy, Debug, PartialEq, Eq)]
pub enum Verdict {
    /// No packet is sent, and nothing changes.
    Ignored,
    /// The packet's data bytes were stored, and no packet is sent, because the message is incomplete.
    Kept,
    /// A message is complete. Its command is PING or CBOR (see [`hid_packet::command`]).
    Finished {
        cid: u32,
        cmd: u8,
    },
    /// An ERROR packet with the code of the cause `why` is sent on the packet's channel.
    Refuse {
        cid: u32,
        why: Refusal,
    },
    /// The response to INIT is sent on the channel `on`. It has the host's nonce, and the channel ID `channel` that the
    /// host must use.
    Greet {
        on: u32,
        channel: u32,
        nonce: [u8; 8],
    },
    /// Like `Greet`. In addition, the pending request on the channel `on` must be dropped.
    GreetAndDrop {
        on: u32,
        channel: u32,
        nonce: [u8; 8],
    },
    /// The pending request on the packet's channel must be cancelled.
    CancelWork,
}
