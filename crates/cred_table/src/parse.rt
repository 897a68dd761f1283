//! Decodes the header and the rows of a snapshot directly from its bytes.

ghost use Rattle.std.specs.Prelude.{◌≡◌, ◌-◌, ◌≤◌, ◌<◌, ◌^◌, pos, option_map, ⊤};
ghost use Rattle.ctap_cbor.specs.Tree.{Int, Bytes, Flag};
ghost use Rattle.ctap_cbor.specs.Grammar.{head};
ghost use Rattle.ctap_cbor.specs.Grammar.{encode_scalar};
ghost use Rattle.ctap_cbor.specs.Items.{One, OpensArray, encode_item};
ghost use Rattle.cred_table.specs.Snapshots.{IsHash, IsUserHandle, IsName, IsRow, version};
ghost use Rattle.ctap_cbor.specs.Views.{to_part};
ghost use Rattle.cred_table.specs.Snapshots.{Reads, ReadsPart, ReadsMember, encode_member, map_in, key_in, and_then, hash_in, handle_in, flag_in, counter_in, name_in, count_in, has_names_in, encode_name, encode_header, encode_row, member_count};

use crate::name::Name;
use crate::row::Row;
use arrayvec::ArrayVec;
use ctap_cbor::{Cursor, Item};

/// Reads an item: its head and, for a string, the content.
#[tactic(auto, using(crate::proofs::Typed::item_missed))]
fn read_item<'a>(cursor: &mut Cursor<'a>, level: u8) -> Option<Item<'a>>
    requires low { 1 ≤ level }
    requires high { level ≤ 5 }
    ensures { ReadsPart (5 - level) encode_item cursor.old cursor.new (option_map to_part result) }
{
    match cursor.item(level) {
        Ok(item) => Some(item),
        Err(_) => None,
    }
}

/// Reads the head of a map with this number of members.
fn read_map(cursor: &mut Cursor, level: u8, count: u64) -> Option<()>
    requires low { 1 ≤ level }
    requires high { level ≤ 4 }
    ensures { Reads (λ _. ⊤) (λ _. head 5 count) cursor.old cursor.new result }
{
    check_map(read_item(cursor, level), count)
}

/// Reads a map key, which must be this unsigned integer.
fn read_key(cursor: &mut Cursor, level: u8, key: u8) -> Option<()>
    requires low { 1 ≤ level }
    requires high { level ≤ 5 }
    ensures { Reads (λ _. ⊤) (λ _. encode_scalar (Int (pos key))) cursor.old cursor.new result }
{
    check_key(read_item(cursor, level), key)
}

/// Reads a member of a map: its key, and its value if that is a string, or else the head of its value.
fn read_member<'a>(cursor: &mut Cursor<'a>, level: u8, key: u8) -> Option<Item<'a>>
    requires low { 1 ≤ level }
    requires high { level ≤ 5 }
    ensures { ReadsPart (5 - level) (encode_member key) cursor.old cursor.new (option_map to_part result) }
{
    read_key(cursor, level, key)?;
    read_item(cursor, level)
}

/// Checks that an item is the head of a map with this number of members.
fn check_map(item: Option<Item>, count: u64) -> Option<()>
    ensures { result ≡ and_then (map_in count) (option_map to_part item.entry) }
{
    match item {
        Some(Item::Map(found)) if found == count => Some(()),
        _ => None,
    }
}

/// Checks that an item is this integer.
fn check_key(item: Option<Item>, key: u8) -> Option<()>
    ensures { result ≡ and_then (key_in key) (option_map to_part item.entry) }
{
    match item {
        Some(Item::Int(found)) if found == key as i128 => Some(()),
        _ => None,
    }
}

/// Returns the content of an item that is a byte string of 32 bytes.
fn hash_of_item(item: Option<Item>) -> Option<[u8; 32]>
    ensures { result ≡ and_then hash_in (option_map to_part item.entry) }
{
    match item {
        Some(Item::Bytes(bytes)) => bytes.try_into().ok(),
        _ => None,
    }
}

/// Returns the content of an item that is a byte string of at most 64 bytes.
fn handle_of(item: Option<Item>) -> Option<ArrayVec<u8, 64>>
    ensures { option_map (λ v. v.items) result ≡ and_then handle_in (option_map to_part item.entry) }
{
    match item {
        Some(Item::Bytes(bytes)) if bytes.len() <= 64 => {
            let mut short = ArrayVec::new();
            short.try_extend_from_slice(bytes).unwrap();
            Some(short)
        }
        _ => None,
    }
}

/// Returns the value of an item that is a Boolean.
fn flag_of_item(item: Option<Item>) -> Option<bool>
    ensures { result ≡ and_then flag_in (option_map to_part item.entry) }
{
    match item {
        Some(Item::Bool(flag)) => Some(flag),
        _ => None,
    }
}

/// Returns the value of an item that is an integer from 0 to 2^32-1.
fn counter_of_item(item: Option<Item>) -> Option<u32>
    ensures { result ≡ and_then counter_in (option_map to_part item.entry) }
{
    match item {
        Some(Item::Int(value)) if 0 <= value && value <= 0xffff_ffff => Some(value as u32),
        _ => None,
    }
}

/// Returns the content of an item that is a text string of at most 64 bytes.
fn name_of_item(item: Option<Item>) -> Option<Name>
    ensures { result ≡ and_then name_in (option_map to_part item.entry) }
{
    match item {
        Some(Item::Text(text)) => Name::new(text),
        _ => None,
    }
}

/// Returns the number of items of an item that is an array.
fn count_of_item(item: Option<Item>) -> Option<u64>
    ensures { result ≡ and_then count_in (option_map to_part item.entry) }
{
    match item {
        Some(Item::Array(count)) => Some(count),
        _ => None,
    }
}

/// Returns whether the rows of a version have user names, from an item that is a known version.
fn has_names_of_item(item: Option<Item>) -> Option<bool>
    ensures { result ≡ and_then has_names_in (option_map to_part item.entry) }
{
    match item {
        Some(Item::Int(1)) => Some(false),
        Some(Item::Int(2)) => Some(true),
        _ => None,
    }
}

/// Reads a member that is a byte string of 32 bytes.
fn read_hash(cursor: &mut Cursor, key: u8) -> Option<[u8; 32]>
    ensures { ReadsMember IsHash (λ s. One (Bytes s)) key cursor.old cursor.new result }
{
    hash_of_item(read_member(cursor, 4, key))
}

/// Reads a member that is a byte string of at most 64 bytes.
fn read_handle(cursor: &mut Cursor, key: u8) -> Option<ArrayVec<u8, 64>>
    ensures { ReadsMember IsUserHandle (λ s. One (Bytes s)) key cursor.old cursor.new (option_map (λ v. v.items) result) }
{
    handle_of(read_member(cursor, 4, key))
}

/// Reads a Boolean member.
fn read_flag(cursor: &mut Cursor, key: u8) -> Option<bool>
    ensures { ReadsMember (λ _. ⊤) (λ b. One (Flag b)) key cursor.old cursor.new result }
{
    flag_of_item(read_member(cursor, 4, key))
}

/// Reads a member that is an integer from 0 to 2^32-1.
fn read_counter(cursor: &mut Cursor, key: u8) -> Option<u32>
    ensures { ReadsMember (λ n. n < 2 ^ 32) (λ n. One (Int (pos n))) key cursor.old cursor.new result }
{
    counter_of_item(read_member(cursor, 4, key))
}

/// Reads the user name of a row. Returns an empty name if the version has no user names.
fn read_name(cursor: &mut Cursor, named: bool) -> Option<Name>
    ensures { Reads (IsName named) (encode_name named) cursor.old cursor.new result }
{
    if !named {
        return Some(Name::default());
    }
    name_of_item(read_member(cursor, 4, 8))
}

/// Reads the version of a snapshot. Returns whether the rows have user names.
fn read_version(cursor: &mut Cursor) -> Option<bool>
    ensures { ReadsMember (λ _. ⊤) (λ named. One (Int (pos (version named)))) 1 cursor.old cursor.new result }
{
    has_names_of_item(read_member(cursor, 2, 1))
}

/// Reads the head of the array of entries. Returns the number of entries.
fn read_count(cursor: &mut Cursor) -> Option<u64>
    ensures { ReadsMember (λ n. n < 2 ^ 64) OpensArray 2 cursor.old cursor.new result }
{
    count_of_item(read_member(cursor, 2, 2))
}

/// Reads the beginning of a snapshot. Returns whether its rows have user names, and the number of entries.
pub(crate) fn read_header(cursor: &mut Cursor) -> Option<(bool, u64)>
    ensures { Reads (λ h. h.1 < 2 ^ 64) encode_header cursor.old cursor.new result }
{
    read_map(cursor, 1, 2)?;
    let named = read_version(cursor)?;
    let count = read_count(cursor)?;
    Some((named, count))
}

/// Reads a row.
pub(crate) fn read_row(cursor: &mut Cursor, named: bool) -> Option<Row>
    ensures { Reads (IsRow named) (encode_row named) cursor.old cursor.new result }
{
    read_map(cursor, 3, row_member_count(named))?;
    let rp = read_hash(cursor, 1)?;
    let id = read_hash(cursor, 2)?;
    let x = read_hash(cursor, 3)?;
    let y = read_hash(cursor, 4)?;
    let user = read_handle(cursor, 5)?;
    let discoverable = read_flag(cursor, 6)?;
    let counter = read_counter(cursor, 7)?;
    let name = read_name(cursor, named)?;
    Some(Row {
        rp,
        id,
        x,
        y,
        user,
        discoverable,
        counter,
        name,
    })
}

/// Returns the number of members of a row.
fn row_member_count(named: bool) -> u64
    ensures { result ≡ member_count named }
{
    if named { 8 } else { 7 }
}
