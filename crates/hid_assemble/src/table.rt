ghost use Rattle.std.specs.Prelude.{◌≡◌};
ghost use Rattle.hid_assemble.specs.Table as spec;
ghost use Rattle.hid_assemble.specs.Table.{Begins};

use hid_packet::command::{CANCEL, CBOR, INIT, PING};
use hid_packet::{BROADCAST, INIT_PACKET_DATA, MAX_MESSAGE_LEN};

/// The highest channel ID that can be allocated.
pub const MAX_CHANNEL: u32 = 0xffff_fffe;

/// The rows of the reply table for an initialization packet. The first row that applies determines the verdict.
#[derive(Clone, Copy, Debug, PartialEq, Eq)]
pub enum ReplyRow {
    /// CANCEL while a request is pending on its channel: the request is cancelled.
    CancelsWork,
    /// Any other CANCEL: nothing changes, and no packet is sent.
    CancelsNothing,
    /// The channel isn't allocated, and the packet isn't INIT on the broadcast channel.
    NoSuchChannel,
    /// INIT with a wrong length: the open message on its channel is dropped.
    InitLength,
    /// INIT on the broadcast channel, but no channel is left to allocate.
    InitFull,
    /// INIT on the broadcast channel: the next channel is allocated.
    InitNew,
    /// INIT on an allocated channel: the open message and the pending request on this channel are dropped.
    InitAgain,
    /// Another channel has an open message or a pending request.
    BusyElsewhere,
    /// A request is pending on this channel.
    BusyHere,
    /// A message is open on this channel, and is dropped.
    BrokenOff,
    /// The command isn't supported.
    NoSuchCommand,
    /// The message is too long, or is a CBOR message without a command byte.
    BadLength,
    /// The message consists of this one packet, and is complete.
    Short,
    /// The message needs further packets, and is open from now on.
    Long,
}

impl ReplyRow {
    /// Returns whether packets of this row are noise: input that is ignored or refused with an ERROR response. Noise
    /// leaves the state unchanged, but not every packet that leaves the state unchanged is noise.
    pub(crate) fn is_noise(self) -> bool
        ensures { result ≡ spec.is_noise (Begins self) }
    {
        matches!(
            self,
            ReplyRow::CancelsNothing
                | ReplyRow::NoSuchChannel
                | ReplyRow::BusyElsewhere
                | ReplyRow::BusyHere
        )
    }
}

/// Returns the row of the reply table for an initialization packet.
#[tactic(auto, unfolding(crate::specs::Table::init_packet_row))]
pub(crate) fn init_packet_row(
    given: u32,
    current: Option<u32>,
    working: Option<u32>,
    cid: u32,
    cmd: u8,
    len: u16,
) -> ReplyRow
    ensures { result ≡ spec.init_packet_row given current working cid cmd len }
{
    let is_given = 1 <= cid && cid <= given;
    let asks_for_channel = cid == BROADCAST && cmd == INIT;
    if cmd == CANCEL && working == Some(cid) {
        ReplyRow::CancelsWork
    } else if cmd == CANCEL {
        ReplyRow::CancelsNothing
    } else if !is_given && !asks_for_channel {
        ReplyRow::NoSuchChannel
    } else if cmd == INIT && len != 8 {
        ReplyRow::InitLength
    } else if asks_for_channel && given == MAX_CHANNEL {
        ReplyRow::InitFull
    } else if asks_for_channel {
        ReplyRow::InitNew
    } else if cmd == INIT {
        ReplyRow::InitAgain
    } else if current.is_some_and(|channel| channel != cid)
        || working.is_some_and(|channel| channel != cid)
    {
        ReplyRow::BusyElsewhere
    } else if working == Some(cid) {
        ReplyRow::BusyHere
    } else if current == Some(cid) {
        ReplyRow::BrokenOff
    } else if cmd != PING && cmd != CBOR {
        ReplyRow::NoSuchCommand
    } else if len > MAX_MESSAGE_LEN || (cmd == CBOR && len == 0) {
        ReplyRow::BadLength
    } else if usize::from(len) <= INIT_PACKET_DATA {
        ReplyRow::Short
    } else {
        ReplyRow::Long
    }
}
