//! The example in the documentation of `token_session`.

use hid_packet::{BROADCAST, Fragments, Outbox, View, command};
use token_session::{Input, Session};

#[test]
fn allocate_channel(rt: HostRuntime) {
    let mut key = Session::<8>::bare([0; 16], 0);
    for packet in Fragments::new(BROADCAST, command::INIT, b"nonce...") {
        let mut outbox = Outbox::new();
        key.step(0, Input::Packet(packet), &mut outbox);
        for answer in outbox {
            match answer.view() {
                View::Start { cmd, len, .. } => assert!(rt; (cmd, len) == (command::INIT, 17)),
                View::More { .. } => panic!(rt;
                    "unexpected continuation packet: the response to INIT has one packet"
                ),
            }
        }
    }
    assert!(rt; key.credentials() == 0);
}
