//! The limits of CTAPHID (CTAP 2.1, section 11.2.4, "Message and packet structure").

/// The number of data bytes in an initialization packet.
pub const INIT_PACKET_DATA: usize = 57;

/// The number of data bytes in a continuation packet.
pub const CONT_PACKET_DATA: usize = 59;

/// Maximum length of a message in bytes. Its packets are one initialization packet and 128 continuation packets, with
/// the sequence numbers 0 to 127.
pub const MAX_MESSAGE_LEN: u16 = 7609;

/// Capacity of an [`Outbox`](crate::Outbox) in packets: the maximum number of packets sent for one input. These are the
/// 129 packets of the longest message, and an ERROR packet for a time-out or a KEEPALIVE packet.
pub const OUTBOX_CAPACITY: usize = 130;
