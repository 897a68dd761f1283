//! Collecting the members of maps and the entries of arrays.

ghost use Rattle.std.specs.Prelude.{Bool, ◌-◌, ◌≤◌, MatchResult};
ghost use Rattle.ctap_cbor.specs.Views.{to_part};
ghost use Rattle.ctap_cbor.specs.Reading.{Fails};
ghost use Rattle.ctap_cbor.specs.Reading.{AddsPair, AddsEntry, ReadsMap, ReadsArray};

use crate::cursor::Cursor;
use crate::fault::Fault;
use crate::item::Item;

/// A collector for the members of a map, used by [`read_map`].
pub trait Members<'a> {
    ghost use Rattle.ctap_cbor.specs.Tree.{Pairs as AllPairs};

    /// A relation between the collector, whether all pairs were accepted, and the pairs that were read.
    ghost Holds: { Self → Bool → AllPairs → Type 0 };

    /// Reads the value of a key, which is one whole item at this nesting level. Returns false if the value has the
    /// wrong type.
    fn member(&mut self, cursor: &mut Cursor<'a>, key: Item<'a>, level: u8) -> Result<bool, Fault>
        requires low { 1 ≤ level }
        requires high { level ≤ 5 }
        ensures { MatchResult result
            (λ taken. AddsPair Holds (5 - level) (to_part key.entry) taken self.old self.new cursor.old cursor.new)
            (λ f. Fails (5 - level) cursor.old cursor.new f.at f.kind) };
}

/// A collector for the entries of an array, used by [`read_array`].
pub trait Entries<'a> {
    ghost use Rattle.ctap_cbor.specs.Tree.{Trees as AllTrees};

    /// A relation between the collector, whether all entries were accepted, and the entries that were read.
    ghost HoldsAll: { Self → Bool → AllTrees → Type 0 };

    /// Reads an entry, which is one whole item at this nesting level. Returns false if the entry has the wrong type.
    fn entry(&mut self, cursor: &mut Cursor<'a>, level: u8) -> Result<bool, Fault>
        requires low { 1 ≤ level }
        requires high { level ≤ 5 }
        ensures { MatchResult result
            (λ taken. AddsEntry HoldsAll (5 - level) taken self.old self.new cursor.old cursor.new)
            (λ f. Fails (5 - level) cursor.old cursor.new f.at f.kind) };
}

/// Reads a whole item at this nesting level (1 to 5), and passes the pairs of a map to `members`. Returns true if the
/// item is a map and all its members were accepted. Stops at the first error; the cursor is then where [`Cursor::skip`]
/// leaves it.
pub fn read_map<'a, M: Members<'a>>(
    members: &mut M,
    cursor: &mut Cursor<'a>,
    level: u8,
) -> Result<bool, Fault>
    requires low { 1 ≤ level }
    requires high { level ≤ 5 }
    ensures { MatchResult result
        (λ taken. ReadsMap M.Holds (5 - level) taken members.old members.new cursor.old cursor.new)
        (λ f. Fails (5 - level) cursor.old cursor.new f.at f.kind) }
{
    let count = match cursor.item(level)? {
        Item::Map(count) => count,
        other => {
            cursor.skip_content(other, level)?;
            return Ok(false);
        }
    };
    let mut previous = None;
    let mut ok = true;
    for done in 0..count {
        let key = cursor.key(previous)?;
        previous = Some(key.bytes);
        let taken = members.member(cursor, key.item, level + 1)?;
        ok &= taken;
    }
    Ok(ok)
}

/// Reads a whole item at this nesting level (1 to 5), and passes the entries of an array to `entries`. Returns true if
/// the item is an array and all its entries were accepted. Stops at the first error; the cursor is then where
/// [`Cursor::skip`] leaves it.
pub fn read_array<'a, M: Entries<'a>>(
    entries: &mut M,
    cursor: &mut Cursor<'a>,
    level: u8,
) -> Result<bool, Fault>
    requires low { 1 ≤ level }
    requires high { level ≤ 5 }
    ensures { MatchResult result
        (λ taken. ReadsArray M.HoldsAll (5 - level) taken entries.old entries.new cursor.old cursor.new)
        (λ f. Fails (5 - level) cursor.old cursor.new f.at f.kind) }
{
    let count = match cursor.item(level)? {
        Item::Array(count) => count,
        other => {
            cursor.skip_content(other, level)?;
            return Ok(false);
        }
    };
    let mut ok = true;
    for done in 0..count {
        let taken = entries.entry(cursor, level + 1)?;
        ok &= taken;
    }
    Ok(ok)
}
