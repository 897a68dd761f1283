//! The example in the documentation of `ctap_message`.

use ctap_message::{Answer, Request, Status, read_request, write_info};

#[test]
fn parse_requests(rt: HostRuntime) {
    let (request, steps) = read_request(b"\x04");
    let info = matches!(request, Ok(Request::Info));
    let mut answer = Answer::new();
    write_info(&[0; 16], &mut answer);

    // authenticatorGetInfo takes no parameters.
    let (request, _) = read_request(b"\x04\xa0");
    let refused = matches!(request, Err(Status::INVALID_LENGTH));
    assert!(rt; info && refused && steps == 0 && answer.len() == 81);
}
