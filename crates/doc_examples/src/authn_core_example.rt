//! The example in the documentation of `authn_core`.

use authn_core::{Config, Core, Presence, Turn};
use cred_table::Store;
use ctap_message::Answer;

#[test]
fn handle_request(rt: HostRuntime) {
    let mut core = Core::<Store<4>, 4>::new(Config { aaguid: [0; 16] }, Store::new(), 0);
    // authenticatorSelection on channel 1 waits for the user's presence, and is then answered.
    let mut answer = Answer::new();
    core.request(10, 1, b"\x0b", &mut answer);
    let waits = core.need().is_presence();
    let turn = core.presence(20, Presence::Granted, &mut answer);
    let answered = turn == Turn::Answer && answer.as_slice() == [0].as_slice();
    assert!(rt; waits && answered);
}
