//! Laws about the definitions: which packets carry a message, and which packets are written for it. Each function has
//! an empty body, and its contract is the law.

ghost use Rattle.std.specs.Prelude.{◌≡◌, ℕ, ◌-◌, ◌^◌, ◌<◌, ◌≤◌, List, length};
ghost use Rattle.hid_packet.specs.Message.{message_packets};
ghost use Rattle.hid_packet.specs.Message.{IsLeast, CarriesMessage};
ghost use Rattle.hid_packet.specs.Message.{AreBytes, ArePackets, PaddingIsZero};
ghost use Rattle.hid_packet.specs.Packet.{MAX_MESSAGE_LEN};

/// States that the packets written for a message carry it.
pub fn written_packets_carry_their_message()
    ensures { (cid cmd : ℕ) (bytes : List ℕ) → cid < 2 ^ 32 → length bytes ≤ MAX_MESSAGE_LEN
        → CarriesMessage (message_packets cid cmd bytes) cid cmd bytes }
{}

/// States that the packets written for a message are one initialization packet and as few continuation packets as
/// possible, in all at most 129 packets.
#[tactic(auto, using(crate::proofs::MessagePackets::fewest_written, crate::proofs::MessagePackets::one_least, crate::proofs::MessagePackets::few_written))]
pub fn written_packets_are_the_fewest()
    ensures least { (cid cmd : ℕ) (bytes : List ℕ) → length bytes ≤ MAX_MESSAGE_LEN
        → IsLeast (length (message_packets cid cmd bytes) - 1) (length bytes) }
    ensures few { (cid cmd : ℕ) (bytes : List ℕ) → length (message_packets cid cmd bytes) ≤ 129 }
    ensures one { (a b len : ℕ) → IsLeast a len → IsLeast b len → a ≡ b }
{}

/// States that the packets written for a message have 64 bytes each, and that zeros follow the end of the message.
#[tactic(auto, using(crate::proofs::MessagePackets::whole_written, crate::proofs::MessagePackets::zeros_written))]
pub fn written_packets_end_in_zeros()
    ensures packets { (cid cmd : ℕ) (bytes : List ℕ) → cmd < 128 → AreBytes bytes → ArePackets (message_packets cid cmd bytes) }
    ensures zeros { (cid cmd : ℕ) (bytes : List ℕ) → length bytes ≤ MAX_MESSAGE_LEN
        → PaddingIsZero bytes (message_packets cid cmd bytes) }
{}

/// States that if packets of 64 bytes carry a message, with zeros after its end, they are the packets written for the
/// message.
#[tactic(auto, using(crate::proofs::MessagePackets::only_written))]
pub fn written_packets_are_the_only_ones()
    ensures { (packets : List (List ℕ)) (cid cmd : ℕ) (bytes : List ℕ)
        → CarriesMessage packets cid cmd bytes → ArePackets packets → PaddingIsZero bytes packets
        → packets ≡ message_packets cid cmd bytes }
{}

/// States that a list of packets carries at most one message.
#[tactic(auto, using(crate::proofs::MessagePackets::one_message))]
pub fn packets_carry_one_message()
    ensures { (packets : List (List ℕ)) (c d k l : ℕ) (a b : List ℕ) → CarriesMessage packets c k a
        → CarriesMessage packets d l b → (c ≡ d) × (k ≡ l) × (a ≡ b) }
{}
