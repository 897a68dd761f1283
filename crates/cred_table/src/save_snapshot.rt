//! Saving snapshots.

ghost use Rattle.std.specs.Prelude.{◌≡◌, ◌<◌, ◌≤◌, ◌+◌, ◌++◌, pos, true, length, take, drop, vec_capacity, OnOk, OnErr, IfErr};
ghost use Rattle.std.specs.List.{AllByRecursion};
ghost use Rattle.ctap_cbor.specs.Tree.{Int, Bytes, Text};
ghost use Rattle.ctap_cbor.specs.Grammar.{encode_scalar, encode_tree};
ghost use Rattle.ctap_cbor.specs.Writing.{space_of, Appends, SameBuffer};
ghost use Rattle.cred_table.specs.declared.fault.SnapshotFault.TheVariants.{Memory};
ghost use Rattle.cred_table.specs.Snapshots.{IsRow, IsHash, IsUserHandle, IsName, Saves, saved_len, snapshot};
ghost use Rattle.cred_table.specs.Snapshots.{encode_row, encode_header};
ghost use Rattle.cred_table.specs.Snapshots.{AppendsUpTo, Extends, SavesInto, max_snapshot_len};

use crate::fault::SnapshotFault;
use crate::name::Name;
use crate::row::Row;
use crate::table::Table;
use arrayvec::ArrayVec;
use ctap_cbor::Sink;
use ctap_cbor::laws::byte_bounds;
use std::alloc::AllocError;

/// Maximum length of an encoded row, in bytes.
const MAX_ROW_LEN: usize = 283;

/// Maximum length of a snapshot without its rows, in bytes.
const MAX_HEADER_LEN: usize = 13;

/// The version of snapshots that are written. Its rows have user names.
const VERSION: u64 = 2;

impl From<AllocError> for SnapshotFault {
    ghost from_gives = { λ _ fault. fault ≡ Memory };

    fn from(_error: AllocError) -> Self {
        SnapshotFault::Memory
    }
}

/// States for proofs the bounds that the type of a row implies. Has no effect when called.
fn row_bounds(row: &Row)
    ensures { IsRow true row.now }
{
    hash_bounds(&row.rp);
    hash_bounds(&row.id);
    hash_bounds(&row.x);
    hash_bounds(&row.y);
    handle_bounds(&row.user);
    name_bounds(&row.name);
    let _counter = row.counter;
}

/// States for proofs that an array of 32 elements has 32 bytes. Has no effect when called.
fn hash_bounds(hash: &[u8; 32])
    ensures { IsHash hash.now }
{
    byte_bounds(hash);
}

/// States for proofs that a vector of capacity 64 has at most 64 bytes. Has no effect when called.
fn handle_bounds(bytes: &ArrayVec<u8, 64>)
    ensures { IsUserHandle bytes.now.items }
{
    byte_bounds(bytes.as_slice());
}

/// States for proofs that a name has at most 64 bytes of UTF-8. Has no effect when called.
fn name_bounds(name: &Name)
    ensures { IsName true name.now }
{
    let _text = name.as_str();
}

/// Writes 32 bytes.
fn put_hash(sink: &mut Sink<'_>, hash: &[u8; 32])
    requires { 34 ≤ space_of sink.old }
    ensures appends { Appends sink.old sink.new (encode_scalar (Bytes hash.now)) 34 }
    ensures same { SameBuffer sink.old sink.new }
{
    sink.bytes(hash);
}

/// Writes a byte string of at most 64 bytes.
fn put_handle(sink: &mut Sink<'_>, bytes: &[u8])
    requires short { length bytes.now ≤ 64 }
    requires space { 66 ≤ space_of sink.old }
    ensures appends { AppendsUpTo sink.old sink.new (encode_scalar (Bytes bytes.now)) 66 }
    ensures space { space_of sink.old ≤ space_of sink.new + 66 }
    ensures same { SameBuffer sink.old sink.new }
{
    sink.bytes(bytes);
}

/// Writes a text string of at most 64 bytes.
fn put_name(sink: &mut Sink<'_>, name: &str)
    requires short { length name.now ≤ 64 }
    requires space { 66 ≤ space_of sink.old }
    ensures appends { AppendsUpTo sink.old sink.new (encode_scalar (Text name.now)) 66 }
    ensures space { space_of sink.old ≤ space_of sink.new + 66 }
    ensures same { SameBuffer sink.old sink.new }
{
    sink.text(name);
}

/// Writes an integer from 0 to 2^32-1.
fn put_counter(sink: &mut Sink<'_>, counter: u32)
    requires { 5 ≤ space_of sink.old }
    ensures appends { AppendsUpTo sink.old sink.new (encode_scalar (Int (pos counter))) 5 }
    ensures space { space_of sink.old ≤ space_of sink.new + 5 }
    ensures same { SameBuffer sink.old sink.new }
{
    sink.uint(counter as u64);
}

/// Writes the map of a row, with the members in ascending order of their keys.
fn put_row(sink: &mut Sink<'_>, row: &Row)
    requires { MAX_ROW_LEN ≤ space_of sink.old }
    ensures appends { AppendsUpTo sink.old sink.new (encode_row true row.now) MAX_ROW_LEN }
    ensures same { SameBuffer sink.old sink.new }
{
    sink.map(8);
    sink.uint(1);
    put_hash(sink, &row.rp);
    sink.uint(2);
    put_hash(sink, &row.id);
    sink.uint(3);
    put_hash(sink, &row.x);
    sink.uint(4);
    put_hash(sink, &row.y);
    sink.uint(5);
    put_handle(sink, &row.user);
    sink.uint(6);
    sink.flag(row.discoverable);
    sink.uint(7);
    put_counter(sink, row.counter);
    sink.uint(8);
    put_name(sink, row.name.as_str());
}

/// Writes the map of a row to the beginning of a buffer, and returns its length.
fn row_into(buffer: &mut [u8], row: &Row) -> usize
    requires { MAX_ROW_LEN ≤ length buffer.old }
    ensures within { result ≤ MAX_ROW_LEN }
    ensures front { take result buffer.new ≡ encode_row true row.now }
{
    let mut sink = Sink::new(buffer);
    put_row(&mut sink, row);
    sink.len()
}

/// Writes the beginning of a snapshot: the version and the number of entries.
fn put_header(sink: &mut Sink<'_>, count: u64)
    requires { MAX_HEADER_LEN ≤ space_of sink.old }
    ensures appends { AppendsUpTo sink.old sink.new (encode_header (true, count)) MAX_HEADER_LEN }
    ensures same { SameBuffer sink.old sink.new }
{
    sink.map(2);
    sink.uint(1);
    sink.uint(VERSION);
    sink.uint(2);
    sink.array(count);
}

/// Writes the beginning of a snapshot to the beginning of a buffer, and returns its length.
fn header_into(buffer: &mut [u8], count: u64) -> usize
    requires { MAX_HEADER_LEN ≤ length buffer.old }
    ensures within { result ≤ MAX_HEADER_LEN }
    ensures front { take result buffer.new ≡ encode_header (true, count) }
{
    let mut sink = Sink::new(buffer);
    put_header(&mut sink, count);
    sink.len()
}

/// Writes a snapshot of the rows of a table.
fn put_snapshot<T: Table<C>, const C: usize>(sink: &mut Sink<'_>, table: &T)
    requires { max_snapshot_len C ≤ space_of sink.old }
    ensures appends { AppendsUpTo sink.old sink.new (encode_tree (snapshot true (T.rows table.now))) (max_snapshot_len C) }
    ensures same { SameBuffer sink.old sink.new }
    ensures typed { AllByRecursion (IsRow true) (T.rows table.now) }
{
    put_header(sink, table.len() as u64);
    for row in table.iter() {
        row_bounds(row);
        put_row(sink, row);
    }
}

/// Writes a snapshot of the rows of a table to the beginning of a buffer with space for the longest snapshot, and
/// returns the snapshot's length.
fn snapshot_into<T: Table<C>, const C: usize>(buffer: &mut [u8], table: &T) -> usize
    requires { max_snapshot_len C ≤ length buffer.old }
    ensures front { take result buffer.new ≡ encode_tree (snapshot true (T.rows table.now)) }
    ensures rest { drop result buffer.new ≡ drop result buffer.old }
    ensures within { result ≤ length buffer.new }
    ensures typed { AllByRecursion (IsRow true) (T.rows table.now) }
{
    let mut sink = Sink::new(buffer);
    put_snapshot(&mut sink, table);
    sink.len()
}

/// Writes a snapshot of the rows of a table to the beginning of `out`, and returns the snapshot's length. If `out` is
/// shorter than 13 bytes plus 283 bytes for each row of the capacity, returns `None` and writes nothing.
pub fn save_into<T: Table<C>, const C: usize>(table: &T, out: &mut [u8]) -> Option<usize>
    ensures { SavesInto C (T.rows table.now) out.old out.new result }
{
    if out.len() < MAX_HEADER_LEN + MAX_ROW_LEN * C {
        return None;
    }
    Some(snapshot_into(out, table))
}

/// Appends a row's map.
fn write_row(row: &Row, out: &mut Vec<u8>) -> Result<(), AllocError>
    ensures ok { OnOk result (out.new.items ≡ out.old.items ++ encode_row true row.now) }
    ensures err { OnErr result (out.new.items ≡ out.old.items) }
    ensures full { OnErr result (vec_capacity out.old < length out.old.items + length (encode_row true row.now)) }
    ensures space { vec_capacity out.old ≤ vec_capacity out.new }
{
    let mut buffer = [0; MAX_ROW_LEN];
    let len = row_into(&mut buffer, row);
    out.extend_from_slice(&buffer[..len])
}

/// Appends the beginning of a snapshot.
fn write_header(count: u64, out: &mut Vec<u8>) -> Result<(), AllocError>
    ensures ok { OnOk result (out.new.items ≡ out.old.items ++ encode_header (true, count)) }
    ensures err { OnErr result (out.new.items ≡ out.old.items) }
    ensures full { OnErr result (vec_capacity out.old < length out.old.items + length (encode_header (true, count))) }
    ensures space { vec_capacity out.old ≤ vec_capacity out.new }
{
    let mut buffer = [0; MAX_HEADER_LEN];
    let len = header_into(&mut buffer, count);
    out.extend_from_slice(&buffer[..len])
}

/// Appends a snapshot: its beginning, followed by the rows.
fn write_rows<T: Table<C>, const C: usize>(
    table: &T,
    out: &mut Vec<u8>,
) -> Result<(), SnapshotFault>
    ensures saved { OnOk result (Saves C (T.rows table.now) out.old.items out.new.items) }
    ensures memory { IfErr result (λ fault. fault ≡ Memory) }
    ensures extends { OnErr result (Extends out.old.items out.new.items) }
    ensures full { OnErr result (vec_capacity out.old < length out.old.items + saved_len (T.rows table.now)) }
{
    write_header(table.len() as u64, out)?;
    for row in table.iter() {
        row_bounds(row);
        write_row(row, out)?;
    }
    Ok(())
}

/// Appends a snapshot of the rows of a table to a vector, with the vector's own allocator. Fails only if an allocation
/// fails. If the vector has capacity for the snapshot, no allocation is needed. After a failure, the vector is
/// unchanged.
pub fn save<T: Table<C>, const C: usize>(table: &T, out: &mut Vec<u8>) -> Result<(), SnapshotFault>
    ensures saved { OnOk result (Saves C (T.rows table.now) out.old.items out.new.items) }
    ensures memory { IfErr result (λ fault. fault ≡ Memory) }
    ensures full { OnErr result (vec_capacity out.old < length out.old.items + saved_len (T.rows table.now)) }
    ensures unchanged { OnErr result (out.new.items ≡ out.old.items) }
{
    let len = out.len();
    let written = write_rows(table, out);
    if written.is_err() {
        out.truncate(len);
    }
    written
}
