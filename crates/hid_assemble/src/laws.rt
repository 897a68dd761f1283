//! Laws about the definitions. Each function has an empty body, and its contract is the law.

ghost use Rattle.std.specs.Prelude.{◌≡◌, ℕ, ◌≤◌, true, [], List, Option, None, Some};
ghost use Rattle.hid_packet.specs.Packet.{CANCEL};
ghost use Rattle.hid_packet.specs.Packet.{Fields, initialization, channel_of};
ghost use Rattle.hid_packet.specs.Message.{CarriesMessage};
ghost use Rattle.hid_assemble.specs.Table.{Open, is_noise, packet_class};
ghost use Rattle.hid_assemble.specs.Verdicts.{is_noise_verdict, verdict};
ghost use Rattle.hid_assemble.specs.Assembly.{Assembly, accepted};
ghost use Rattle.hid_assemble.specs.Verdicts.{Arrival, packets_of, received, last_verdict, ArriveInTime, IsSupportedMessage};
ghost use Rattle.hid_assemble.specs.declared.verdict.Verdict.TheVariants.{Finished};

/// States that the packets of a supported message complete it, with exactly its bytes, if its channel is allocated, the
/// packets arrive less than 500 ms apart, and no message was open before.
#[tactic(auto, using(crate::proofs::Receiving::message_told, crate::proofs::Receiving::message_finishes))]
pub fn packets_of_a_message_complete_it()
    ensures told { (a : Assembly) (arrivals : List Arrival) (cid cmd : ℕ) (bytes : List ℕ) → a.current ≡ None
        → 1 ≤ cid → cid ≤ a.given → IsSupportedMessage cmd bytes
        → CarriesMessage (packets_of arrivals) cid cmd bytes → ArriveInTime arrivals
        → last_verdict a arrivals ≡ Finished cid cmd }
    ensures bytes { (a : Assembly) (arrivals : List Arrival) (cid cmd : ℕ) (bytes : List ℕ) → a.current ≡ None
        → 1 ≤ cid → cid ≤ a.given → IsSupportedMessage cmd bytes
        → CarriesMessage (packets_of arrivals) cid cmd bytes → ArriveInTime arrivals
        → received a arrivals ≡ record { given = a.given; current = None; finished = bytes } }
{}

/// States that a packet is noise (ignored input) if and only if the verdict on it is to ignore it, or to reject it with
/// ERROR "invalid channel" or "channel busy". Noise leaves the channels and the open message unchanged.
#[tactic(auto, using(crate::proofs::Rows::noise_turned, crate::proofs::Rows::turned_kept))]
pub fn noise_is_turned_away()
    ensures answer { (a : Assembly) (work : Option ℕ) (f : Fields)
        → is_noise (packet_class a.given a.current work f) ≡ is_noise_verdict (verdict a work f) }
    ensures kept { (a : Assembly) (at : ℕ) (work : Option ℕ) (f : Fields)
        → is_noise_verdict (verdict a work f) ≡ true
        → accepted a at work f ≡ record { given = a.given; current = a.current; finished = [] } }
{}

/// States that an open message is changed neither by a packet on another channel nor by CANCEL.
#[tactic(auto, using(crate::proofs::Receiving::foreign_packet, crate::proofs::Receiving::cancel_packet))]
pub fn other_packets_keep_the_open_message()
    ensures foreign { (a : Assembly) (at : ℕ) (work : Option ℕ) (f : Fields) (m : Open) → a.current ≡ Some m
        → (channel_of f ≡ m.cid → ⊥)
        → (accepted a at work f).current ≡ a.current }
    ensures cancel { (a : Assembly) (at : ℕ) (work : Option ℕ) (cid len : ℕ) (part : List ℕ) (m : Open)
        → a.current ≡ Some m
        → (accepted a at work (initialization cid CANCEL len part)).current ≡ a.current }
{}
