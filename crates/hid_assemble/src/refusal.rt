//! Why a packet is rejected, or a message is dropped.
ghost use Rattle.std.specs.Prelude.{◌≡◌};
ghost use Rattle.hid_assemble.specs.Refusals.{code_number};

/// Why a packet is rejected, or a message is dropped, with the values that were compared.
#[derive(Clone, Copy, Debug, PartialEq, Eq)]
pub enum Refusal {
    /// The command isn't supported.
    NoSuchCommand { cmd: u8 },
    /// The length of an INIT packet isn't 8.
    InitLength { len: u16 },
    /// The message is too long, or is a CBOR message without a command byte.
    MessageLength { cmd: u8, len: u16 },
    /// A continuation packet doesn't have the expected sequence number.
    WrongNumber { came: u8, due: u8 },
    /// An initialization packet arrived while the continuation packet with this sequence number was expected on the
    /// channel.
    BrokenOff { due: u8 },
    /// The open message timed out: its last packet arrived at time `last`, and the current time is `at`.
    Overdue { last: u64, at: u64 },
    /// Another channel has an open message or a pending request.
    BusyElsewhere { channel: u32 },
    /// A request is pending on this channel.
    BusyHere,
    /// The channel isn't allocated. The allocated channels are 1 to `given`.
    NoSuchChannel { given: u32 },
    /// No channel is left to allocate.
    NoChannelLeft,
}

impl Refusal {
    /// Returns the data byte of the ERROR packet (CTAP 2.1, section 11.2.9.1.6).
    pub fn code(self) -> u8
        ensures { result ≡ code_number self }
    {
        match self {
            Refusal::NoSuchCommand { .. } => 0x01,
            Refusal::InitLength { .. } | Refusal::MessageLength { .. } => 0x03,
            Refusal::WrongNumber { .. } | Refusal::BrokenOff { .. } => 0x04,
            Refusal::Overdue { .. } => 0x05,
            Refusal::BusyElsewhere { .. } | Refusal::BusyHere => 0x06,
            Refusal::NoSuchChannel { .. } => 0x0b,
            Refusal::NoChannelLeft => 0x7f,
        }
    }
}
