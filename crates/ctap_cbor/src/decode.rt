//! Decodes canonical CBOR to an owned [`Value`].

ghost use Rattle.std.specs.Prelude.{◌≡◌, ◌-◌, ◌≤◌, ℕ, List, Option, Some, MatchResult, IfOk, IfErr};
ghost use Rattle.ctap_cbor.specs.Grammar.{IsCanonical};
ghost use Rattle.ctap_cbor.specs.Outcome.{Outcome, IsOutcome, result_of};
ghost use Rattle.ctap_cbor.specs.Reading.{Passes, PassesAll, PassesPairs, Fails, FailsInArray, FailsInPairs};
ghost use Rattle.ctap_cbor.specs.Values.{to_tree, to_trees, to_pairs, IsScalarOf, UnlessMemory};
ghost use Rattle.ctap_cbor.specs.Views.{to_part};

use crate::cursor::Cursor;
use crate::fault::{Fault, Kind};
use crate::item::Item;
use crate::laws::byte_bounds;
use crate::value::{Value, new_array, new_bytes, new_flag, new_int, new_map, new_null, new_text};
use std::alloc::{AllocError, AllocFailed, Global};

impl From<AllocError> for Fault {
    ghost use Rattle.ctap_cbor.specs.declared.fault.Kind.TheVariants.{Memory};

    ghost from_gives = { λ _ f. (f.kind ≡ Memory) × (f.at ≡ 0) };

    fn from(_error: AllocError) -> Self {
        Fault {
            at: 0,
            kind: Kind::Memory,
        }
    }
}

impl<T: Drop> From<AllocFailed<T>> for Fault {
    ghost use Rattle.ctap_cbor.specs.declared.fault.Kind.TheVariants.{Memory};

    ghost from_gives = { λ _ f. (f.kind ≡ Memory) × (f.at ≡ 0) };

    fn from(_error: AllocFailed<T>) -> Self {
        Fault {
            at: 0,
            kind: Kind::Memory,
        }
    }
}

/// Decodes one data item in canonical encoding. Fails with the error that [`check`](crate::check) returns. If an
/// allocation fails, fails with [`Kind::Memory`] at position 0. Memory is allocated for items that were read, never
/// according to the counts in heads.
pub fn decode_value(alloc: Global, bytes: &[u8]) -> Result<Value, Fault>
    ensures ok { IfOk result (λ v. IsCanonical (to_tree v) bytes.now) }
    ensures err { IfErr result (λ f. UnlessMemory f ((o : Outcome) × IsOutcome bytes.now o
        × (result_of o ≡ Some (f.at, f.kind)))) }
{
    byte_bounds(bytes);
    let mut cursor = Cursor::new(bytes);
    let value = read_value(alloc, &mut cursor, 1)?;
    cursor.end()?;
    Ok(value)
}

/// Decodes a whole item.
#[cycle(value)]
fn read_value(alloc: Global, cursor: &mut Cursor, level: u8) -> Result<Value, Fault>
    requires low { 1 ≤ level }
    requires high { level ≤ 5 }
    ensures { MatchResult result
        (λ v. Passes (5 - level) (to_tree v) cursor.old cursor.new)
        (λ f. UnlessMemory f (Fails (5 - level) cursor.old cursor.new f.at f.kind)) }
{
    let item = cursor.item(level)?;
    match item {
        Item::Array(count) => {
            let items = read_items(alloc, cursor, level + 1, count)?;
            Ok(new_array(items))
        }
        Item::Map(count) => {
            let pairs = read_pairs(alloc, cursor, level + 1, count)?;
            Ok(new_map(pairs))
        }
        _ => {
            let value = decode_scalar(alloc, item)?;
            Ok(value)
        }
    }
}

/// Decodes `count` items.
#[cycle(value)]
fn read_items(
    alloc: Global,
    cursor: &mut Cursor,
    level: u8,
    count: u64,
) -> Result<Vec<Value>, Fault>
    requires low { 1 ≤ level }
    requires high { level ≤ 5 }
    ensures { MatchResult result
        (λ v. PassesAll (5 - level) count (to_trees v.items) cursor.old cursor.new)
        (λ f. UnlessMemory f (FailsInArray (5 - level) count cursor.old cursor.new f.at f.kind)) }
{
    let mut items = Vec::new(alloc);
    for done in 0..count {
        let item = read_value(alloc, cursor, level)?;
        items.push(item)?;
    }
    Ok(items)
}

/// Decodes `count` keys, each followed by its value.
#[cycle(value)]
fn read_pairs(
    alloc: Global,
    cursor: &mut Cursor,
    level: u8,
    count: u64,
) -> Result<Vec<(Value, Value)>, Fault>
    requires low { 1 ≤ level }
    requires high { level ≤ 5 }
    ensures { MatchResult result
        (λ v. (last : Option (List ℕ)) × PassesPairs (5 - level) count (to_pairs v.items) last cursor.old cursor.new)
        (λ f. UnlessMemory f (FailsInPairs (5 - level) count cursor.old cursor.new f.at f.kind)) }
{
    let mut pairs = Vec::new(alloc);
    let mut previous = None;
    for done in 0..count {
        let key = cursor.key(previous)?;
        previous = Some(key.bytes);
        let name = decode_scalar(alloc, key.item)?;
        let value = read_value(alloc, cursor, level)?;
        pairs.push((name, value))?;
    }
    Ok(pairs)
}

/// Converts an item that is neither an array nor a map to a value.
fn decode_scalar(alloc: Global, item: Item) -> Result<Value, AllocError>
    ensures { IfOk result (λ v. IsScalarOf (to_part item.entry) (to_tree v)) }
{
    match item {
        Item::Int(i) => Ok(new_int(i)),
        Item::Bytes(bytes) => {
            let copy = copy_bytes(alloc, bytes)?;
            Ok(new_bytes(copy))
        }
        Item::Text(text) => {
            let copy = String::from_str(alloc, text)?;
            Ok(new_text(copy))
        }
        Item::Bool(flag) => Ok(new_flag(flag)),
        _ => Ok(new_null()),
    }
}

/// Copies bytes to a new vector.
fn copy_bytes(alloc: Global, bytes: &[u8]) -> Result<Vec<u8>, AllocError>
    ensures { IfOk result (λ v. v.items ≡ bytes.now) }
{
    bytes.to_vec(alloc)
}
