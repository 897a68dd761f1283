//! Decoding of one item: its head and, for a string, the content (RFC 8949, section 3).

ghost use Rattle.std.specs.Prelude.{◌≡◌, ◌<◌, ◌≤◌, length, MatchOption, true, false};
ghost use Rattle.std.specs.Str.{is_utf8};
ghost use Rattle.ctap_cbor.specs.Grammar.{info, argument_len, argument, least_argument};
ghost use Rattle.ctap_cbor.specs.Items.{first_fault_of, first_faults};
ghost use Rattle.ctap_cbor.specs.Items.{read};
ghost use Rattle.ctap_cbor.specs.Views.{IsDecodedItem, IsHeadArgument, to_part, expected_of};

use crate::fault::Kind;
use crate::item::Item;
use byteorder::{BigEndian, ByteOrder};

/// Decodes the item or key at the beginning of the input, and returns it with its length. On failure, returns the error
/// and the number of bytes that count as read. Doesn't check the order of keys.
#[tactic(auto, unfolding(crate::specs::Items::body_faults, crate::specs::Items::string_len, crate::specs::Items::item_len, crate::specs::Items::passed))]
#[inline(always)]
pub(crate) fn find<'a>(
    bytes: &'a [u8],
    levels: u8,
    is_key: bool,
) -> Result<(Item<'a>, usize), (Kind, usize)>
    ensures { IsDecodedItem bytes.now result (read levels (expected_of is_key) bytes.now) }
{
    let Some((first, rest)) = bytes.split_first() else {
        return Err((Kind::Truncated, 0));
    };
    if let Some(kind) = first_fault(*first, levels, is_key) {
        return Err((kind, 1));
    }
    let major = *first / 32;
    let (argument, len) = find_argument(*first, rest)?;
    if major != 2 && major != 3 {
        let item = match major {
            0 => Item::Int(i128::from(argument)),
            1 => Item::Int(-1 - i128::from(argument)),
            4 => Item::Array(argument),
            5 => Item::Map(argument),
            _ => match *first % 32 {
                20 => Item::Bool(false),
                21 => Item::Bool(true),
                _ => Item::Null,
            },
        };
        return Ok((item, 1 + len));
    }
    let content = &rest[len..];
    if (content.len() as u64) < argument {
        return Err((Kind::Truncated, 1 + rest.len()));
    }
    let string = &content[..argument as usize];
    if major == 2 {
        return Ok((Item::Bytes(string), 1 + len + string.len()));
    }
    match str::from_utf8(string) {
        Ok(text) => Ok((Item::Text(text), 1 + len + string.len())),
        Err(_) => Err((Kind::NotUtf8, 1 + len + string.len())),
    }
}

/// Returns the first error that the initial byte determines, if any.
#[tactic(auto, unfolding(crate::specs::Items::first_faults))]
fn first_fault(first: u8, levels: u8, is_key: bool) -> Option<Kind>
    ensures { result ≡ first_fault_of (first_faults levels (expected_of is_key) first) }
{
    let major = first / 32;
    let info = first % 32;
    if info >= 28 {
        return Some(Kind::Reserved);
    }
    match major {
        0..=3 => None,
        4 | 5 if is_key => Some(Kind::KeyType),
        4 | 5 if levels == 0 => Some(Kind::TooDeep),
        4 | 5 => None,
        7 if 20 <= info && info <= 22 && is_key => Some(Kind::KeyType),
        7 if 20 <= info && info <= 22 => None,
        _ => Some(Kind::Unsupported),
    }
}

/// Returns the argument of the head with this initial byte, and the number of bytes that encode the argument after the
/// initial byte. On failure, returns the error and the number of bytes that count as read.
#[tactic(auto, unfolding(crate::specs::Items::body_faults, crate::specs::Items::passed, crate::specs::Grammar::argument, crate::specs::Grammar::argument_len, crate::specs::Grammar::least_argument))]
#[inline(always)]
fn find_argument(first: u8, rest: &[u8]) -> Result<(u64, usize), (Kind, usize)>
    requires { info first < 28 }
    ensures { IsHeadArgument first rest.now result }
{
    let info = first % 32;
    // Most heads consist of one byte.
    if info < 24 {
        return Ok((u64::from(info), 0));
    }
    let (argument, len, least) = match info {
        24 if 1 <= rest.len() => (u64::from(rest[0]), 1, 24),
        25 if 2 <= rest.len() => (u64::from(BigEndian::read_u16(rest)), 2, 0x100),
        26 if 4 <= rest.len() => (u64::from(BigEndian::read_u32(rest)), 4, 0x1_0000),
        27 if 8 <= rest.len() => (BigEndian::read_u64(rest), 8, 0x1_0000_0000),
        _ => return Err((Kind::Truncated, 1 + rest.len())),
    };
    if argument < least {
        return Err((Kind::NotShortest, 1 + len));
    }
    Ok((argument, len))
}
