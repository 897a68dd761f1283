//! CTAP2 canonical CBOR: decoding in place, and encoding into a borrowed buffer.
//!
//! - [`check`] checks that bytes are the canonical encoding of one data item, or returns the position and the [`Kind`]
//!   of the first error. It also counts the steps.
//! - [`Cursor`] reads item by item: heads with the content of strings, map keys in order, whole items. It borrows
//!   strings from the message, and counts the steps. [`read_map`] and [`read_array`] pass the members of a map and the
//!   entries of an array to a collector.
//! - [`Sink`] writes heads and items in their shortest form to a borrowed buffer, and [`head_into`] writes a single
//!   head.
//! - [`decode_value`] and [`encode_value`] read and write a [`Value`], an owned tree.
//! - [`laws`] states properties of the encoding itself, such as that no encoding is a prefix of another.
//!
//! An example, which the gate runs (`crates/doc_examples/src/ctap_cbor_example.rt`):
//!
//! ```text
//! /// `{1: "usb", 2: [true]}`
//! const MESSAGE: &[u8] = b"\xa2\x01\x63usb\x02\x81\xf5";
//!
//! assert!(rt; check(MESSAGE).result.is_ok());
//! let mut cursor = Cursor::new(MESSAGE);
//! assert!(rt; cursor.item(1)? == Item::Map(2));
//! let first = cursor.key(None)?;
//! cursor.skip(2)?;
//! cursor.key(Some(first.bytes))?; // has to be above the first
//! cursor.skip(2)?;
//! cursor.end()?;
//!
//! let mut buffer = [0; 2];
//! let mut sink = Sink::new(&mut buffer);
//! sink.array(1);
//! sink.flag(true);
//! assert!(rt; buffer == [0x81, 0xf5]);
//!
//! let value = decode_value(rt.alloc(), MESSAGE)?;
//! let mut copy = Vec::new(rt.alloc());
//! encode_value(&value, &mut copy)?;
//! assert!(rt; copy.as_slice() == MESSAGE);
//! ```
//!
//! Only `decode_value` and `encode_value` allocate: as items are read, and as the output grows. Nesting is limited to
//! four levels. Counts in heads cause no allocation.
//!
//! The canonical encoding is defined in `specs/Grammar.antt`, the order of errors in `specs/Items.antt` and
//! `specs/Outcome.antt`, and a cursor's calls in `specs/Reading.antt`.
//!
//! Standards: CTAP 2.1, "Message Encoding"; RFC 8949, sections 3 (encoding) and 4.2 (deterministic encoding).
#![tactic(auto)]

mod collect;
mod cursor;
mod decode;
mod encode;
mod fault;
mod head;
mod item;
pub mod laws;
mod sink;
mod validation;
mod value;

pub use collect::{Entries, Members, read_array, read_map};
pub use cursor::Cursor;
pub use decode::decode_value;
pub use encode::encode_value;
pub use fault::{Fault, Kind};
pub use item::{Item, Key};
pub use sink::{Sink, head_into};
pub use validation::{Checked, check, read_whole};
pub use value::Value;
