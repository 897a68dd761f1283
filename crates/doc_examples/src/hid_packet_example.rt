//! The example in the documentation of `hid_packet`.

use hid_packet::laws::written_packets_are_the_fewest;
use hid_packet::{Outbox, View, command};

#[test]
fn queue_message(rt: HostRuntime) {
    let mut outbox = Outbox::new();
    written_packets_are_the_fewest(); // so there is capacity
    outbox.put_message(1, command::PING, b"hello");
    for packet in outbox {
        match packet.view() {
            View::Start {
                cid,
                cmd,
                len,
                part,
            } => {
                assert!(rt; (cid, cmd, len) == (1, command::PING, 5));
                assert!(rt; part.starts_with(b"hello"));
            }
            View::More { .. } => panic!(rt;
                "unexpected continuation packet: a message of 5 bytes has one packet"
            ),
        }
    }
}
