//! Parses the requests that a host sends to an authenticator, and encodes the responses (CTAP 2.1, section 6 and
//! section 8, "Message Encoding").
//!
//! An example, which the gate runs (`crates/doc_examples/src/ctap_message_example.rt`):
//!
//! ```text
//! let (request, steps) = read_request(b"\x04");
//! let info = matches!(request, Ok(Request::Info));
//! let mut answer = Answer::new();
//! write_info(&[0; 16], &mut answer);
//!
//! // authenticatorGetInfo takes no parameters.
//! let (request, _) = read_request(b"\x04\xa0");
//! let refused = matches!(request, Err(Status::INVALID_LENGTH));
//! assert!(rt; info && refused && steps == 0 && answer.len() == 81);
//! ```
//!
//! - [`read_request`] returns the request in a message, or the status of the first check that it fails, and the number
//!   of parsing steps.
//! - [`Descriptors`] iterates over a request's list of credentials, in place.
//! - [`write_status`], [`write_info`], [`write_created`] and [`write_assertion`] write responses: a status alone, or
//!   status 0x00 and a map in canonical CBOR.
//! - [`by_value`] has the same calls with their results by value.
//! - [`laws`] states properties of the definitions in `specs/`.
//!
//! Supported are authenticatorMakeCredential (0x01), GetAssertion (0x02), GetInfo (0x04), Reset (0x07),
//! GetNextAssertion (0x08) and Selection (0x0b). Nothing here allocates.
//!
//! Requests are specified in `specs/Requests.antt`, and responses in `specs/Responses.antt`.
#![tactic(auto)]

mod answer;
pub mod by_value;
mod command;
mod descriptor;
mod descriptors;
mod fault;
mod get_assertion;
mod item;
pub mod laws;
mod make_credential;
mod options;
mod parameters;
mod request;
mod rp;
mod status;
mod user;
mod validate;

pub use answer::{Answer, write_assertion, write_created, write_info, write_status};
pub use command::Command;
pub use descriptors::Descriptors;
pub use fault::RequestFault;
pub use request::{
    AssertRequest, MakeRequest, Request, parse_request, read_request, request_fault,
};
pub use status::Status;
