//! Encodes an owned [`Value`] as canonical CBOR.

ghost use Rattle.std.specs.Prelude.{◌≡◌, ◌≢◌, ◌++◌, ◌∷◌, [], ◌<◌, ◌≤◌, length, drop, Some, Err, OnOk, OnErr, IfErr, MatchResult, vec_capacity};
ghost use Rattle.std.specs.Option.{ForSome};
ghost use Rattle.ctap_cbor.specs.Grammar.{head};
ghost use Rattle.ctap_cbor.specs.Tree as tree;
ghost use Rattle.ctap_cbor.specs.Grammar.{encode_scalar, encode_tree, encode_trees, encode_pairs, IsCanonical};
ghost use Rattle.ctap_cbor.specs.Items.{AKey, is_above};
ghost use Rattle.ctap_cbor.specs.Values.{to_tree, to_trees, to_pairs};
ghost use Rattle.ctap_cbor.specs.Items.{refusal, refusal_all, refusal_pairs, own_refusal, range_refusal};
ghost use Rattle.ctap_cbor.specs.Writing.{Writes, WritesAll, WritesPairs, WritesKey, WritesScalar, FailsWith, Extends, IsShort, previous_encoding};

use crate::fault::Kind;
use crate::laws::byte_bounds;
use crate::sink::head_into;
use crate::value::Value;
use std::alloc::{AllocError, AllocFailed};

/// The position of a key's encoding in the output.
#[derive(Clone, Copy)]
struct Span {
    start: usize,
    end: usize,
}

impl From<AllocError> for Kind {
    ghost use Rattle.ctap_cbor.specs.declared.fault.Kind.TheVariants.{Memory};

    ghost from_gives = { λ _ k. k ≡ Memory };

    fn from(_error: AllocError) -> Self {
        Kind::Memory
    }
}

impl<T: Drop> From<AllocFailed<T>> for Kind {
    ghost use Rattle.ctap_cbor.specs.declared.fault.Kind.TheVariants.{Memory};

    ghost from_gives = { λ _ k. k ≡ Memory };

    fn from(_error: AllocFailed<T>) -> Self {
        Kind::Memory
    }
}

/// Appends the canonical encoding of a value. Fails with the first error in the order of encoding. For a key, the order
/// is: its type (5), its range (8), its order in the map (6), and then its value. For an array or map: nesting that is
/// too deep (4), and then its content. For another integer: its range (8). Fails with 10 if an allocation fails, which
/// is possible only if the capacity of the vector is too small. On failure, the vector is unchanged.
pub fn encode_value(value: &Value, out: &mut Vec<u8>) -> Result<(), Kind>
    ensures ok { OnOk result (IsCanonical (to_tree value.now) (encode_tree (to_tree value.now))) }
    ensures appends { OnOk result (out.new.items ≡ out.old.items ++ encode_tree (to_tree value.now)) }
    ensures err { IfErr result (λ k. k ≢ Kind.Memory → refusal 4 (to_tree value.now) ≡ Some k) }
    ensures unchanged { OnErr result (out.new.items ≡ out.old.items) }

    // An allocation fails only if the vector has to grow.
    ensures memory { result ≡ Err Kind.Memory → IsShort (vec_capacity out.old) out.old.items
        (encode_tree (to_tree value.now)) }
{
    let len = out.len();
    let written = write_value(value, out, 4);
    if written.is_err() {
        out.truncate(len);
    }
    written
}

/// Encodes a value that has at most this many levels of arrays and maps.
#[cycle(write)]
fn write_value(value: &Value, out: &mut Vec<u8>, levels: u8) -> Result<(), Kind>
    ensures writes { MatchResult result
        (λ _. Writes levels (to_tree value.now) out.old.items out.new.items)
        (λ k. FailsWith k (refusal levels (to_tree value.now)) out.old.items out.new.items) }
    ensures grows { vec_capacity out.old ≤ vec_capacity out.new }
    ensures short { IfErr result (λ k. k ≡ Kind.Memory
        → IsShort (vec_capacity out.old) out.old.items (encode_tree (to_tree value.now))) }
{
    match value {
        Value::Int(i) => write_int(*i, out),
        Value::Bytes(bytes) => write_bytes(bytes, out),
        Value::Text(text) => write_text(text, out),
        Value::Array(items) => write_array(items, out, levels),
        Value::Map(pairs) => write_map(pairs, out, levels),
        Value::Bool(flag) => write_byte(if *flag { 0xf5 } else { 0xf4 }, out),
        Value::Null => write_byte(0xf6, out),
    }
}

/// Encodes an array: its head, followed by its items.
#[cycle(write)]
fn write_array(items: &[Value], out: &mut Vec<u8>, levels: u8) -> Result<(), Kind>
    ensures writes { MatchResult result
        (λ _. Writes levels (tree.Array (to_trees items.now)) out.old.items out.new.items)
        (λ k. FailsWith k (refusal levels (tree.Array (to_trees items.now))) out.old.items out.new.items) }
    ensures grows { vec_capacity out.old ≤ vec_capacity out.new }
    ensures short { IfErr result (λ k. k ≡ Kind.Memory
        → IsShort (vec_capacity out.old) out.old.items (encode_tree (tree.Array (to_trees items.now)))) }
{
    if levels == 0 {
        return Err(Kind::TooDeep);
    }
    write_head(4, items.len() as u64, out)?;
    write_items(items, out, levels - 1)
}

/// Encodes a map: its head, followed by its pairs.
#[cycle(write)]
fn write_map(pairs: &[(Value, Value)], out: &mut Vec<u8>, levels: u8) -> Result<(), Kind>
    ensures writes { MatchResult result
        (λ _. Writes levels (tree.Map (to_pairs pairs.now)) out.old.items out.new.items)
        (λ k. FailsWith k (refusal levels (tree.Map (to_pairs pairs.now))) out.old.items out.new.items) }
    ensures grows { vec_capacity out.old ≤ vec_capacity out.new }
    ensures short { IfErr result (λ k. k ≡ Kind.Memory
        → IsShort (vec_capacity out.old) out.old.items (encode_tree (tree.Map (to_pairs pairs.now)))) }
{
    if levels == 0 {
        return Err(Kind::TooDeep);
    }
    write_head(5, pairs.len() as u64, out)?;
    write_pairs(pairs, out, levels - 1)
}

/// Encodes the items of an array.
#[cycle(write)]
fn write_items(items: &[Value], out: &mut Vec<u8>, levels: u8) -> Result<(), Kind>
    ensures writes { MatchResult result
        (λ _. WritesAll levels (to_trees items.now) out.old.items out.new.items)
        (λ k. FailsWith k (refusal_all levels (to_trees items.now)) out.old.items out.new.items) }
    ensures grows { vec_capacity out.old ≤ vec_capacity out.new }
    ensures short { IfErr result (λ k. k ≡ Kind.Memory
        → IsShort (vec_capacity out.old) out.old.items (encode_trees (to_trees items.now))) }
{
    for item in items {
        write_value(item, out, levels)?;
    }
    Ok(())
}

/// Encodes the pairs of a map. The keys must be in ascending order.
#[cycle(write)]
fn write_pairs(pairs: &[(Value, Value)], out: &mut Vec<u8>, levels: u8) -> Result<(), Kind>
    ensures writes { MatchResult result
        (λ _. WritesPairs levels (to_pairs pairs.now) out.old.items out.new.items)
        (λ k. FailsWith k (refusal_pairs levels None (to_pairs pairs.now)) out.old.items out.new.items) }
    ensures grows { vec_capacity out.old ≤ vec_capacity out.new }
    ensures short { IfErr result (λ k. k ≡ Kind.Memory
        → IsShort (vec_capacity out.old) out.old.items (encode_pairs (to_pairs pairs.now))) }
{
    let mut previous = None;
    for pair in pairs {
        let start = out.len();
        write_key(&pair.0, out)?;
        if !is_above_last(previous, out, start) {
            return Err(Kind::KeyOrder);
        }
        previous = Some(Span {
            start,
            end: out.len(),
        });
        write_value(&pair.1, out, levels)?;
    }
    Ok(())
}

/// Encodes a key of a map without checking its order.
fn write_key(key: &Value, out: &mut Vec<u8>) -> Result<(), Kind>
    ensures writes { MatchResult result
        (λ _. WritesKey (to_tree key.now) out.old.items out.new.items)
        (λ k. FailsWith k (own_refusal (to_tree key.now)) out.old.items out.new.items) }
    ensures grows { vec_capacity out.old ≤ vec_capacity out.new }
    ensures short { IfErr result (λ k. k ≡ Kind.Memory
        → IsShort (vec_capacity out.old) out.old.items (encode_tree (to_tree key.now))) }
{
    match key {
        Value::Int(i) => write_int(*i, out),
        Value::Bytes(bytes) => write_bytes(bytes, out),
        Value::Text(text) => write_text(text, out),
        _ => Err(Kind::KeyType),
    }
}

/// Returns whether the key that was written from offset `start` on is greater than the previous key, if any.
fn is_above_last(previous: Option<Span>, out: &[u8], start: usize) -> bool
    requires span { ForSome previous (λ s. (s.start ≤ s.end) × (s.end ≤ length out.now)) }
    requires start { start ≤ length out.now }
    ensures { result ≡ is_above (AKey (previous_encoding out.now previous)) (drop start out.now) }
{
    match previous {
        None => true,
        Some(span) => out[span.start..span.end].cmp(&out[start..]).is_lt(),
    }
}

/// Encodes an integer.
fn write_int(value: i128, out: &mut Vec<u8>) -> Result<(), Kind>
    ensures writes { MatchResult result
        (λ _. WritesScalar (tree.Int value) out.old.items out.new.items)
        (λ k. FailsWith k (range_refusal (tree.Int value)) out.old.items out.new.items) }
    ensures grows { vec_capacity out.old ≤ vec_capacity out.new }
    ensures short { IfErr result (λ k. k ≡ Kind.Memory
        → IsShort (vec_capacity out.old) out.old.items (encode_scalar (tree.Int value))) }
{
    if !(-0x1_0000_0000_0000_0000 <= value && value <= 0xffff_ffff_ffff_ffff) {
        return Err(Kind::Unsupported);
    }
    if value >= 0 {
        write_head(0, value as u64, out)?;
    } else {
        write_head(1, (-1 - value) as u64, out)?;
    }
    Ok(())
}

/// Encodes a byte string.
fn write_bytes(bytes: &[u8], out: &mut Vec<u8>) -> Result<(), Kind>
    ensures writes { MatchResult result
        (λ _. WritesScalar (tree.Bytes bytes.now) out.old.items out.new.items)
        (λ k. (k ≡ Kind.Memory) × Extends out.old.items out.new.items) }
    ensures grows { vec_capacity out.old ≤ vec_capacity out.new }
    ensures short { IfErr result (λ k. k ≡ Kind.Memory
        → IsShort (vec_capacity out.old) out.old.items (encode_scalar (tree.Bytes bytes.now))) }
{
    byte_bounds(bytes);
    write_head(2, bytes.len() as u64, out)?;
    out.extend_from_slice(bytes)?;
    Ok(())
}

/// Encodes a text string.
fn write_text(text: &str, out: &mut Vec<u8>) -> Result<(), Kind>
    ensures writes { MatchResult result
        (λ _. WritesScalar (tree.Text text.now) out.old.items out.new.items)
        (λ k. (k ≡ Kind.Memory) × Extends out.old.items out.new.items) }
    ensures grows { vec_capacity out.old ≤ vec_capacity out.new }
    ensures short { IfErr result (λ k. k ≡ Kind.Memory
        → IsShort (vec_capacity out.old) out.old.items (encode_scalar (tree.Text text.now))) }
{
    write_head(3, text.len() as u64, out)?;
    out.extend_from_slice(text.as_bytes())?;
    Ok(())
}

/// Writes the shortest head with this major type and argument.
fn write_head(major: u8, argument: u64, out: &mut Vec<u8>) -> Result<(), AllocError>
    requires { major < 8 }
    ensures ok { OnOk result (out.new.items ≡ out.old.items ++ head major argument) }
    ensures err { OnErr result (out.new.items ≡ out.old.items) }
    ensures grows { vec_capacity out.old ≤ vec_capacity out.new }
    ensures short { OnErr result (IsShort (vec_capacity out.old) out.old.items (head major argument)) }
{
    let mut buffer = [0u8; 9];
    let len = head_into(major, argument, &mut buffer);
    out.extend_from_slice(&buffer[..len])
}

/// Writes one byte.
fn write_byte(byte: u8, out: &mut Vec<u8>) -> Result<(), Kind>
    ensures writes { MatchResult result
        (λ _. out.new.items ≡ out.old.items ++ byte ∷ [])
        (λ k. (k ≡ Kind.Memory) × Extends out.old.items out.new.items) }
    ensures grows { vec_capacity out.old ≤ vec_capacity out.new }
    ensures short { IfErr result (λ k. k ≡ Kind.Memory → IsShort (vec_capacity out.old) out.old.items (byte ∷ [])) }
{
    out.push(byte)?;
    Ok(())
}
