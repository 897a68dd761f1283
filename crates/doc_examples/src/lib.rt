//! The examples in the libraries' documentation, as tests. They are in a crate of their own, like the tests in Cargo's
//! folder `tests/`, because testing a crate proves it once more. The libraries' other tests run without a proof
//! (tests/unit).
#![tactic(auto)]

#[cfg(test)]
mod authn_core_example;
#[cfg(test)]
mod cred_table_example;
#[cfg(test)]
mod ctap_cbor_example;
#[cfg(test)]
mod ctap_message_example;
#[cfg(test)]
mod fido_authdata_example;
#[cfg(test)]
mod hid_assemble_example;
#[cfg(test)]
mod hid_packet_example;
#[cfg(test)]
mod session_log_example;
#[cfg(test)]
mod token_session_example;
