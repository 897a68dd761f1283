//! The command bytes of CTAPHID (CTAP 2.1, section 11.2.9), without bit 7, which is set in an initialization packet.

pub const PING: u8 = 0x01;

pub const MSG: u8 = 0x03;

pub const LOCK: u8 = 0x04;

pub const INIT: u8 = 0x06;

pub const WINK: u8 = 0x08;

pub const CBOR: u8 = 0x10;

pub const CANCEL: u8 = 0x11;

pub const KEEPALIVE: u8 = 0x3b;

pub const ERROR: u8 = 0x3f;
