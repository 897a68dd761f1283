#![tactic(auto, unfolding(crate::specs::Table::packet_class, crate::specs::Table::cont_packet_row, crate::specs::Assembly::accepted, crate::specs::Assembly::is_overdue, crate::specs::Assembly::open_after, crate::specs::Assembly::message_after, crate::specs::Verdicts::verdict, crate::specs::Verdicts::class_verdict, crate::specs::Assembly::assembly))]

ghost use Rattle.std.specs.Prelude.{◌≡◌, ℕ, ◌+◌, ◌*◌, ◌≤◌, ◌<◌, ◌++◌, [], length, take, drop, Option, None, Some, option_map, if◌then◌else◌};
ghost use Rattle.hid_packet.specs.Packet.{fields, initialization, continuation};
ghost use Rattle.hid_assemble.specs.Assembly.{IsValidAssembly, is_overdue, still_open, stored_len, accepted, drop_on};
ghost use Rattle.hid_assemble.specs.Table.{MAX_CHANNEL, is_noise, is_busy_here, packet_class};
ghost use Rattle.hid_assemble.specs.Refusals.{expected_sequence_of, last_packet_time, busy_channel};
ghost use Rattle.hid_assemble.specs.Verdicts.{verdict};
ghost use Rattle.hid_packet.specs.Packet.{CONT_PACKET_DATA, INIT_PACKET_DATA, MAX_STORED_LEN, MAX_MESSAGE_LEN};

use crate::refusal::Refusal;
use crate::table::{ReplyRow, init_packet_row};
use crate::verdict::Verdict;
use hid_packet::{BROADCAST, CONT_PACKET_DATA, INIT_PACKET_DATA, MAX_MESSAGE_LEN, Packet, View};
use std::marker::Model;

/// The time in milliseconds after which an open message times out, counted from its last packet.
pub const MESSAGE_TIMEOUT: u64 = 500;

/// An open message: the fields of its initialization packet, the number of its continuation packets so far, and the
/// timestamp of its last packet.
#[derive(Clone, Copy)]
struct OpenMessage {
    cid: u32,
    cmd: u8,
    len: u16,
    kept: u8,
    last: u64,
}

impl OpenMessage {
    /// Returns the message that an initialization packet at time `last` begins.
    fn new(cid: u32, cmd: u8, len: u16, last: u64) -> Self
        ensures { result ≡ record { cid = cid; cmd = cmd; len = len; kept = 0; last = last } }
    {
        OpenMessage {
            cid,
            cmd,
            len,
            kept: 0,
            last,
        }
    }
}

/// What an assembler's buffer contains.
#[derive(Clone, Copy)]
enum Contents {
    Nothing,
    /// The data bytes of an open message that were received so far.
    Open(OpenMessage),
    /// The message that the last packet completed, with this length.
    Finished(u16),
}

/// Writes data bytes to the buffer `message`, after the first `held` bytes.
fn put_data(message: &mut [u8], held: usize, part: &[u8])
    requires { held + length part.now ≤ length message.old }
    ensures { message.new ≡ take held message.old ++ (part.now ++ drop (held + length part.now) message.old) }
{
    message[held..held + part.len()].copy_from_slice(part);
}

/// Returns the verdict on a valid INIT packet on the channel `on`: the response has the channel ID `channel` and the
/// nonce at the start of `part`. If a request is pending on the channel `on`, the request must be dropped.
fn init_verdict(on: u32, channel: u32, part: &[u8], working: Option<u32>) -> Verdict
    requires { 8 ≤ length part.now }
    ensures { result ≡ (if is_busy_here working on then Verdict.GreetAndDrop on channel (take 8 part.now)
        else Verdict.Greet on channel (take 8 part.now)) }
{
    let mut nonce = [0; 8];
    nonce.copy_from_slice(&part[..8]);
    if working == Some(on) {
        Verdict::GreetAndDrop { on, channel, nonce }
    } else {
        Verdict::Greet { on, channel, nonce }
    }
}

/// Returns the verdict that rejects a packet on this channel for the cause `why`.
fn refuse(cid: u32, why: Refusal) -> Verdict
    ensures { result ≡ Verdict.Refuse cid why }
{
    Verdict::Refuse { cid, why }
}

/// Returns the cause for rejecting a packet on the channel `cid` while another channel is busy, with the busy channel.
fn busy_refusal(current: Option<u32>, working: Option<u32>, cid: u32) -> Refusal
    ensures { result ≡ Refusal.BusyElsewhere (busy_channel current working cid) }
{
    let channel = match current {
        Some(channel) if channel != cid => channel,
        _ => working.unwrap_or(cid),
    };
    Refusal::BusyElsewhere { channel }
}

/// The state of the transport: the number of allocated channels, and the open message, if any. For each packet, call
/// [`pass`](Self::pass), which drops the open message if it timed out, and then [`accept`](Self::accept).
#[derive(Drop)]
pub struct Assembler {
    given: u32,
    contents: Contents,
    buffer: [u8; MAX_MESSAGE_LEN as usize],
}

// In contracts, an assembler is the number of allocated channels, the open message with its bytes, and the bytes of the
// complete message.
impl Model for Assembler {
    ghost use Rattle.hid_assemble.specs.Assembly.{Assembly};
    ghost use Rattle.hid_assemble.specs.Assembly.{assembly, IsValidState};

    ghost Value = { Assembly };

    ghost view = { λ a. assembly a.given a.contents a.buffer };

    ghost invariant = { λ a. IsValidState a.given a.contents a.buffer };
}

impl Assembler {
    /// Returns an assembler without allocated channels or an open message.
    pub fn new() -> Self
        ensures value { result ≡ record { given = 0; current = None; finished = [] } }
    {
        Self::with_given(0)
    }

    /// Returns an assembler with the channels 1 to `given` allocated, and without an open message.
    pub fn with_given(given: u32) -> Self
        requires { given ≤ MAX_CHANNEL }
        ensures { result ≡ record { given = given; current = None; finished = [] } }
    {
        Assembler {
            given,
            contents: Contents::Nothing,
            buffer: [0; MAX_MESSAGE_LEN as usize],
        }
    }

    /// Returns whether a message is open whose last packet arrived 500 ms or more before time `at`.
    pub fn overdue(&self, at: u64) -> bool
        ensures { result ≡ is_overdue self.now.current at }
    {
        match self.contents {
            Contents::Open(message) => at.saturating_sub(message.last) >= MESSAGE_TIMEOUT,
            Contents::Nothing | Contents::Finished(_) => false,
        }
    }

    /// Drops the open message if it timed out, and returns its channel, on which ERROR 0x05 must be sent (CTAP 2.1,
    /// section 11.2.5.2).
    pub fn pass(&mut self, at: u64) -> Option<u32>
        ensures dropped { result ≡ (if is_overdue self.old.current at then option_map (λ m. m.cid) self.old.current
            else None) }
        ensures state { self.new ≡ record self.old { current = still_open self.old.current at } }
        ensures lawful { IsValidAssembly self.new }
    {
        if !self.overdue(at) {
            return None;
        }
        let channel = self.open_on();
        self.contents = Contents::Nothing;
        channel
    }

    /// Handles a packet at time `at`. `working` is the channel of the pending request, if any. Returns the verdict of
    /// the first row of the reply table that applies, and stores or drops data according to this row. The verdicts
    /// `CancelWork` and `GreetAndDrop` occur only if a request is pending on the packet's channel.
    #[tactic(auto, unfolding(crate::specs::Assembly::accepted, crate::specs::Verdicts::verdict))]
    pub fn accept(&mut self, at: u64, packet: &Packet, working: Option<u32>) -> Verdict
        ensures verdict { result ≡ verdict self.old working (fields packet.now.0) }
        ensures state { self.new ≡ accepted self.old at working (fields packet.now.0) }
        ensures lawful { IsValidAssembly self.new }
    {
        self.clear_finished();
        match packet.view() {
            View::Start {
                cid,
                cmd,
                len,
                part,
            } => self.accept_initialization(at, working, cid, cmd, len, part),
            View::More { cid, seq, part } => self.accept_continuation(at, cid, seq, part),
        }
    }

    /// Returns whether a packet at time `at` is ignored ("noise" in the theorem): after [`pass`](Self::pass), the
    /// packet would change nothing, and at most an ERROR packet would be sent for it. `working` is the channel of the
    /// pending request, if any.
    pub fn is_noise(&self, at: u64, packet: &Packet, working: Option<u32>) -> bool
        ensures { result ≡ is_noise (packet_class self.now.given (still_open self.now.current at) working
            (fields packet.now.0)) }
    {
        let overdue = self.overdue(at);
        match packet.view() {
            View::Start { cid, cmd, len, .. } => {
                let current = if overdue { None } else { self.open_on() };
                init_packet_row(self.given(), current, working, cid, cmd, len).is_noise()
            }
            View::More { cid, .. } => overdue || self.open_on() != Some(cid),
        }
    }

    /// Removes the message that the previous packet completed, if any.
    fn clear_finished(&mut self)
        ensures forgotten { self.new ≡ record self.old { finished = [] } }
        ensures lawful { IsValidAssembly self.new }
    {
        if let Contents::Finished(_) = self.contents {
            self.contents = Contents::Nothing;
        }
    }

    /// Drops the open message if it is on this channel.
    fn drop_on(&mut self, cid: u32)
        requires { self.old.finished ≡ [] }
        ensures { self.new ≡ record self.old { current = drop_on self.old.current cid } }
    {
        if self.open_on() == Some(cid) {
            self.contents = Contents::Nothing;
        }
    }

    /// Handles an initialization packet.
    fn accept_initialization(
        &mut self,
        at: u64,
        working: Option<u32>,
        cid: u32,
        cmd: u8,
        len: u16,
        part: &[u8],
    ) -> Verdict
        requires data { length part.now ≡ INIT_PACKET_DATA }
        requires forgotten { self.old.finished ≡ [] }
        ensures verdict { result ≡ verdict self.old working (initialization cid cmd len part.now) }
        ensures state { self.new ≡ accepted self.old at working (initialization cid cmd len part.now) }
    {
        match init_packet_row(self.given, self.open_on(), working, cid, cmd, len) {
            ReplyRow::CancelsWork => Verdict::CancelWork,
            ReplyRow::CancelsNothing => Verdict::Ignored,
            ReplyRow::NoSuchChannel => refuse(cid, Refusal::NoSuchChannel { given: self.given }),
            ReplyRow::InitLength => {
                self.drop_on(cid);
                refuse(cid, Refusal::InitLength { len })
            }
            ReplyRow::InitFull => refuse(cid, Refusal::NoChannelLeft),
            ReplyRow::InitNew => {
                self.given += 1;
                init_verdict(BROADCAST, self.given, part, None)
            }
            ReplyRow::InitAgain => {
                self.drop_on(cid);
                init_verdict(cid, cid, part, working)
            }
            ReplyRow::BusyElsewhere => refuse(cid, busy_refusal(self.open_on(), working, cid)),
            ReplyRow::BusyHere => refuse(cid, Refusal::BusyHere),
            ReplyRow::BrokenOff => {
                let due = self.expected_sequence();
                self.contents = Contents::Nothing;
                refuse(cid, Refusal::BrokenOff { due })
            }
            ReplyRow::NoSuchCommand => refuse(cid, Refusal::NoSuchCommand { cmd }),
            ReplyRow::BadLength => refuse(cid, Refusal::MessageLength { cmd, len }),
            ReplyRow::Short => {
                put_data(&mut self.buffer, 0, part);
                self.contents = Contents::Finished(len);
                Verdict::Finished { cid, cmd }
            }
            ReplyRow::Long => {
                put_data(&mut self.buffer, 0, part);
                self.contents = Contents::Open(OpenMessage::new(cid, cmd, len, at));
                Verdict::Kept
            }
        }
    }

    /// Handles a continuation packet.
    fn accept_continuation(&mut self, at: u64, cid: u32, number: u8, part: &[u8]) -> Verdict
        requires data { length part.now ≡ CONT_PACKET_DATA }
        requires forgotten { self.old.finished ≡ [] }
        ensures verdict { (working : Option ℕ) → result ≡ verdict self.old working (continuation cid number part.now) }
        ensures state { (working : Option ℕ) → self.new
            ≡ accepted self.old at working (continuation cid number part.now) }
    {
        let held = usize::from(self.held());
        let Contents::Open(mut message) = self.contents else {
            return Verdict::Ignored;
        };
        if message.cid != cid {
            return Verdict::Ignored;
        }
        if number != message.kept {
            self.contents = Contents::Nothing;
            let due = message.kept;
            return refuse(cid, Refusal::WrongNumber { came: number, due });
        }
        put_data(&mut self.buffer, held, part);
        if held + CONT_PACKET_DATA < usize::from(message.len) {
            message.kept += 1;
            message.last = at;
            self.contents = Contents::Open(message);
            return Verdict::Kept;
        }
        self.contents = Contents::Finished(message.len);
        Verdict::Finished {
            cid,
            cmd: message.cmd,
        }
    }

    /// Returns the message that the last call of [`accept`](Self::accept) completed, or an empty slice.
    pub fn message(&self) -> &[u8]
        ensures bytes { result.now ≡ self.now.finished }
        ensures limit { length self.now.finished ≤ MAX_MESSAGE_LEN }
    {
        match self.contents {
            Contents::Finished(len) => &self.buffer[..usize::from(len)],
            Contents::Nothing | Contents::Open(_) => &[],
        }
    }

    /// Returns the number of data bytes of the open message that were received, or 0 if no message is open.
    pub fn held(&self) -> u16
        ensures lawful { IsValidAssembly self.now }
        ensures bytes { result ≡ stored_len self.now.current }
        ensures limit { stored_len self.now.current ≤ MAX_STORED_LEN }
    {
        match self.contents {
            Contents::Open(message) => {
                (INIT_PACKET_DATA + CONT_PACKET_DATA * usize::from(message.kept)) as u16
            }
            Contents::Nothing | Contents::Finished(_) => 0,
        }
    }

    /// Returns the channel of the open message, if any.
    pub fn open_on(&self) -> Option<u32>
        ensures { result ≡ option_map (λ m. m.cid) self.now.current }
    {
        match self.contents {
            Contents::Open(message) => Some(message.cid),
            Contents::Nothing | Contents::Finished(_) => None,
        }
    }

    /// Returns the sequence number that is expected next in the open message, or 0 if no message is open.
    fn expected_sequence(&self) -> u8
        ensures { result ≡ expected_sequence_of self.now.current }
    {
        match self.contents {
            Contents::Open(message) => message.kept,
            Contents::Nothing | Contents::Finished(_) => 0,
        }
    }

    /// Returns the timestamp of the last packet of the open message, or 0 if no message is open.
    pub fn last(&self) -> u64
        ensures { result ≡ last_packet_time self.now.current }
    {
        match self.contents {
            Contents::Open(message) => message.last,
            Contents::Nothing | Contents::Finished(_) => 0,
        }
    }

    /// Returns the number of allocated channels.
    pub fn given(&self) -> u32
        ensures count { result ≡ self.now.given }
        ensures limit { self.now.given ≤ MAX_CHANNEL }
    {
        self.given
    }
}
