//! The example in the documentation of `hid_assemble`.

use hid_assemble::{Assembler, Verdict};
use hid_packet::Outbox;
use hid_packet::command::PING;
use hid_packet::laws::written_packets_are_the_fewest;

#[test]
fn assemble_message(rt: HostRuntime) {
    let mut assembler = Assembler::with_given(1);
    let mut outbox = Outbox::new();
    written_packets_are_the_fewest();
    outbox.put_message(1, PING, &[7; 100]);
    let mut verdict = Verdict::Ignored;
    for packet in outbox {
        verdict = assembler.accept(0, &packet, None);
    }
    assert!(rt; verdict == Verdict::Finished { cid: 1, cmd: PING });
    assert!(rt; assembler.message() == [7; 100].as_slice());
}
