//! An example of a host: it allocates a channel of a security key with INIT, sends a PING, and registers a credential.
//! The packets that the key sends are printed.
#![tactic(auto)]

use authn_core::{NewKey, Presence, Signature};
use hid_packet::command::{CBOR, INIT, PING};
use hid_packet::{BROADCAST, Fragments, Outbox};
use std::io;
use token_session::{Input, Session};

/// An authenticatorMakeCredential request for user 01 of `example.com`. The client data hash consists of 32 letters
/// `h`.
const REGISTRATION: &[u8] =
    b"\x01\xa4\x01\x58\x20hhhhhhhhhhhhhhhhhhhhhhhhhhhhhhhh\x02\xa1\x62id\x6bexample.com\
      \x03\xa1\x62id\x41\x01\x04\x81\xa2\x63alg\x26\x64type\x6apublic-key";

/// Passes an input to the key, and prints the packets that the key sends.
fn step(rt: &HostRuntime, key: &mut Session<8>, input: Input) -> io::Result<()> {
    let mut outbox = Outbox::new();
    key.step(0, input, &mut outbox);
    for packet in outbox {
        println!(rt; "{:?}", packet.view())?;
    }
    Ok(())
}

/// Passes the packets of a message to the key, one at a time.
fn send(rt: &HostRuntime, key: &mut Session<8>, message: Fragments) -> io::Result<()> {
    for packet in message {
        step(rt, key, Input::Packet(packet))?;
    }
    Ok(())
}

fn main(rt: HostRuntime) -> io::Result<()> {
    let mut key = Session::bare([0; 16], 0);
    send(&rt, &mut key, Fragments::new(BROADCAST, INIT, b"nonce..."))?;
    send(&rt, &mut key, Fragments::new(1, PING, b"hello"))?;
    send(&rt, &mut key, Fragments::new(1, CBOR, REGISTRATION))?;
    step(&rt, &mut key, Input::Presence(Presence::Granted))?;
    let pair = NewKey {
        id: [b'i'; 32],
        x: [b'x'; 32],
        y: [b'y'; 32],
    };
    step(&rt, &mut key, Input::Key(Some(pair)))?;
    step(&rt, &mut key, Input::Signature(Signature::new(&[b's'; 70])))
}
