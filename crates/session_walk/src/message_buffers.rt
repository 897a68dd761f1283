//! Buffers for the bytes of a few messages at a time.
ghost use Rattle.std.specs.Prelude.{◌≡◌, ◌≢◌, ◌<◌, ◌≤◌, ◌==◌, ℕ, Some, None, length, option_map, if◌then◌else◌};
ghost use Rattle.session_walk.specs.Messages.{KeptMessage, all_bytes, new_message, continued, kept_at, evicted_line, released};
ghost use Rattle.session_walk.specs.Messages.{AddsData, CanBeKept, KeepsOnly, complete_bytes_at};
ghost use Rattle.hid_packet.specs.Packet.{MAX_MESSAGE_LEN};

use arrayvec::ArrayVec;
use hid_packet::MAX_MESSAGE_LEN;
use std::marker::Model;

/// Maximum message length in bytes.
pub const MESSAGE_BUFFER_LEN: usize = MAX_MESSAGE_LEN as usize;

/// A buffer for one message. It is free if `line` is 0.
#[derive(Drop)]
struct MessageBuffer {
    /// Line of its initialization packet, or 0 if there is none.
    line: u64,
    /// Length of the complete message in bytes.
    size: usize,
    bytes: ArrayVec<u8, MESSAGE_BUFFER_LEN>,
}

impl Model for MessageBuffer {
    ghost use Rattle.std.specs.Prelude.{◌≤◌, length};
    ghost use Rattle.hid_packet.specs.Packet.{MAX_MESSAGE_LEN};
    ghost use Rattle.session_walk.specs.Messages.{KeptMessage};

    ghost Value = { KeptMessage };

    ghost view = { λ k. record { line = k.line; size = k.size; bytes = k.bytes.items } };

    ghost invariant = { λ k. (k.size ≤ MAX_MESSAGE_LEN) × (length k.bytes.items ≤ k.size) };
}

impl MessageBuffer {
    /// Returns an empty buffer.
    fn none() -> Self
        ensures { result.line ≡ 0 }
    {
        MessageBuffer {
            line: 0,
            size: 0,
            bytes: ArrayVec::new(),
        }
    }

    /// Begins a message of `length` bytes.
    fn begin(&mut self, line: u64, length: u16, part: &[u8])
        requires { length ≤ MAX_MESSAGE_LEN }
        ensures { self.new ≡ new_message line length part.now }
    {
        self.line = line;
        self.size = usize::from(length);
        self.bytes.clear();
        self.add(part);
    }

    /// Adds a packet's data, up to the message's length.
    fn add(&mut self, part: &[u8])
        ensures { self.new ≡ continued part.now self.old }
    {
        let missing = self.size.saturating_sub(self.bytes.len());
        let more = part.split_at(missing.min(part.len())).0;
        let _ = self.bytes.try_extend_from_slice(more);
    }

    /// Returns the message, if complete.
    fn all_bytes(&self) -> Option<&[u8]>
        ensures { option_map (λ bytes. bytes.now) result ≡ all_bytes self.now }
    {
        if self.bytes.len() == self.size {
            Some(self.bytes.as_slice())
        } else {
            None
        }
    }

    /// Frees the buffer if its message began at this line.
    fn release(&mut self, line: u64)
        ensures { self.new ≡ released line self.old }
    {
        if self.line == line {
            self.line = 0;
        }
    }
}

/// The buffers of the two latest messages, by first line. Two are enough, because a key processes one message and
/// refuses others at once.
#[derive(Drop)]
pub struct MessageBuffers {
    first: MessageBuffer,
    second: MessageBuffer,
    /// Whether `first` was used last.
    is_first_last: bool,
}

impl Model for MessageBuffers {
    ghost use Rattle.std.specs.Prelude.{◌≡◌};
    ghost use Rattle.session_walk.specs.Messages.{KeptMessages};

    ghost Value = { KeptMessages };

    ghost view = { λ p. record { first = p.first; second = p.second; is_first_last = p.is_first_last } };

    ghost invariant = { λ p. p.first.line ≡ p.second.line → p.first.line ≡ 0 };
}

impl MessageBuffers {
    /// Returns empty buffers.
    pub fn new() -> Self
        ensures { (line : ℕ) → kept_at result line ≡ None }
    {
        MessageBuffers {
            first: MessageBuffer::none(),
            second: MessageBuffer::none(),
            is_first_last: false,
        }
    }

    /// Begins a message of `length` bytes, in a free buffer or else in the one that wasn't used last. Empty messages
    /// and those over 7609 bytes are not kept.
    pub fn begin(&mut self, line: u64, length: u16, part: &[u8])
        ensures kept { 0 < line → CanBeKept length
            → kept_at self.new line ≡ Some (new_message line length part.now) }
        ensures others { CanBeKept length → (other : ℕ) → other ≢ line
            → kept_at self.new other ≡ (if other == evicted_line line self.old then None else kept_at self.old other) }
        ensures brings { kept_at self.old line ≡ None → AddsData line length part.now line self.old self.new }
        ensures neither { (CanBeKept length → ⊥) → self.new ≡ self.old }
    {
        if length == 0 || length > MAX_MESSAGE_LEN {
            return;
        }
        self.first.release(line);
        self.second.release(line);
        if self.second.line == 0 || self.first.line > 0 && self.is_first_last {
            self.second.begin(line, length, part);
            self.is_first_last = false;
        } else {
            self.first.begin(line, length, part);
            self.is_first_last = true;
        }
    }

    /// Adds a packet's data to a message, up to its length.
    pub fn add(&mut self, line: u64, part: &[u8])
        ensures value { (other : ℕ) → kept_at self.new other
            ≡ (if other == line then option_map (continued part.now) (kept_at self.old line)
            else kept_at self.old other) }
        ensures brings { (number size : ℕ) → AddsData number size part.now line self.old self.new }
    {
        if line == 0 {
            return;
        }
        if self.first.line == line {
            self.first.add(part);
            self.is_first_last = true;
        } else if self.second.line == line {
            self.second.add(part);
            self.is_first_last = false;
        }
    }

    /// Frees a message's buffer.
    pub fn release(&mut self, line: u64)
        ensures value { (other : ℕ) → kept_at self.new other
            ≡ (if other == line then None else kept_at self.old other) }
        ensures only { KeepsOnly self.old self.new }
    {
        self.first.release(line);
        self.second.release(line);
    }

    /// Returns the bytes of a message, if kept and complete.
    pub fn bytes(&self, line: u64) -> Option<&[u8]>
        ensures { option_map (λ bytes. bytes.now) result ≡ complete_bytes_at self.now line }
    {
        if line == 0 {
            None
        } else if self.first.line == line {
            self.first.all_bytes()
        } else if self.second.line == line {
            self.second.all_bytes()
        } else {
            None
        }
    }
}
