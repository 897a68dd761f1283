//! Replays a log in memory. No page shows this example.

use session_log::{SliceIn, SliceOut, replay};
use token_session::Session;

#[test]
fn replay_log(rt: HostRuntime) {
    let mut session = Session::<8>::bare([0; 16], 0);
    let mut reader = SliceIn::new(b"# 5 ms pass\nt 5\n");
    let mut text = [0; 256];
    let mut writer = SliceOut::new(&mut text);
    let meters = replay(&mut reader, &mut writer, &mut session);
    assert!(rt; meters.is_ok_and(|meters| meters.requests == 0));
    let log = b"# 5 ms pass\nt 5\n= held 0 rows 0 pending 0 requests 0 bytes 0 steps 0\n";
    assert!(rt; writer.written() == log.as_slice());
}
