//! A cursor over an encoded message, which counts the steps of decoding.

ghost use Rattle.std.specs.Prelude.{◌≡◌, ◌-◌, ◌+◌, ◌≤◌, length, take, drop, MatchResult, Ok, Err};
ghost use Rattle.std.specs.Option.{option_copied};
ghost use Rattle.ctap_cbor.specs.Grammar.{AreBytes};
ghost use Rattle.ctap_cbor.specs.Items.{AnItem, AKey};
ghost use Rattle.ctap_cbor.specs.Items.{read, IsAllowed};
ghost use Rattle.ctap_cbor.specs.Views.{to_part, ReadsItem, end_steps_of};
ghost use Rattle.ctap_cbor.specs.Reading.{Reading, rest_of, advance, TakesItem, HasItemError, GivesKey, HasNoByteLeft, HasTrailingBytes};
ghost use Rattle.ctap_cbor.specs.Reading.{PassesOne, PassesHead, Fails, IsOnlyResult, MovesOn};

use crate::fault::{Fault, Kind};
use crate::head::find;
use crate::item::{Item, Key};
use crate::laws::byte_bounds;
use std::marker::Model;

/// Decodes a message item by item, in place.
///
/// In contracts, a cursor is its message, the position, and the steps so far. A step is a byte that is read, a byte of
/// a key that is compared with the previous key, or the check for the message's end.
///
/// Nesting levels count from 1, the message's one item. The content of an array or map of level n is at level n + 1.
/// Level 5 allows no array or map.
///
/// After an error, the cursor is positioned after the bytes that count as read: all bytes if the input is truncated, or
/// else an invalid initial byte, a head that isn't the shortest, a text that isn't UTF-8, or a key out of order.
#[derive(Drop)]
pub struct Cursor<'a> {
    bytes: &'a [u8],
    place: usize,
    steps: u64,
}

impl<'a> Model for Cursor<'a> {
    ghost Value = { Reading };

    ghost view = { λ c. record { bytes = c.bytes.now; place = c.place; steps = c.steps } };

    ghost invariant = { λ c. c.place ≤ length c.bytes.now };
}

impl<'a> Cursor<'a> {
    /// Creates a cursor at the first byte of a message.
    pub fn new(bytes: &'a [u8]) -> Self
        ensures { result ≡ record { bytes = bytes.now; place = 0; steps = 0 } }
    {
        Cursor {
            bytes,
            place: 0,
            steps: 0,
        }
    }

    /// Returns the position of the next byte, counted from 0.
    pub fn place(&self) -> usize
        ensures { result ≡ self.now.place }
    {
        self.place
    }

    /// Returns the number of steps so far, saturating at 2^64-1.
    pub fn steps(&self) -> u64
        ensures { result ≡ self.now.steps }
    {
        self.steps
    }

    /// Reads one item: its head and, for a string, the content. The content of an array or map follows in the message.
    pub fn item(&mut self, level: u8) -> Result<Item<'a>, Fault>
        requires low { 1 ≤ level }
        requires high { level ≤ 5 }
        ensures takes { MatchResult result
            (λ i. TakesItem (5 - level) self.old self.new (to_part i))
            (λ f. HasItemError (5 - level) AnItem self.old self.new f.at f.kind) }
        ensures exact { MatchResult result
            (λ i. read (5 - level) AnItem (rest_of self.old) ≡ Ok (to_part i, rest_of self.new))
            (λ f. read (5 - level) AnItem (rest_of self.old) ≡ Err f.kind) }
        ensures only { ReadsItem (5 - level) self.old self.new result }
    {
        let at = self.place;
        let rest = self.rest();
        match find(rest, 5 - level, false) {
            Ok((item, len)) => {
                self.pass(len, 0);
                Ok(item)
            }
            Err((kind, len)) => {
                self.pass(len, end_steps(kind));
                Err(Fault { at, kind })
            }
        }
    }

    /// Reads a key of a map, and returns the key with its encoding. `previous` is the encoding of the previous key of
    /// the same map, or None for the first key. In lexicographic order, the key must be greater than the previous key.
    pub fn key(&mut self, previous: Option<&'a [u8]>) -> Result<Key<'a>, Fault>
        ensures gives { MatchResult result
            (λ k. GivesKey (option_copied previous.entry) self.old self.new (to_part k.item) k.bytes.now)
            (λ f. HasItemError 0 (AKey (option_copied previous.entry)) self.old self.new f.at f.kind) }
        ensures exact { MatchResult result
            (λ k. read 0 (AKey (option_copied previous.entry)) (rest_of self.old)
            ≡ Ok (to_part k.item, rest_of self.new))
            (λ f. read 0 (AKey (option_copied previous.entry)) (rest_of self.old) ≡ Err f.kind) }
    {
        let at = self.place;
        let rest = self.rest();
        match find(rest, 0, true) {
            Ok((item, len)) => {
                let bytes = &rest[..len];
                let (is_above, compared) = match previous {
                    None => (true, 0),
                    Some(before) => (before.cmp(bytes).is_lt(), len),
                };
                self.pass(len, compared);
                if is_above {
                    Ok(Key { item, bytes })
                } else {
                    Err(Fault {
                        at,
                        kind: Kind::KeyOrder,
                    })
                }
            }
            Err((kind, len)) => {
                self.pass(len, end_steps(kind));
                Err(Fault { at, kind })
            }
        }
    }

    /// Skips an item with its content.
    #[cycle(skip)]
    pub fn skip(&mut self, level: u8) -> Result<(), Fault>
        requires low { 1 ≤ level }
        requires high { level ≤ 5 }
        ensures passes { MatchResult result
            (λ _. PassesOne (5 - level) self.old self.new)
            (λ f. Fails (5 - level) self.old self.new f.at f.kind) }
        ensures only { IsOnlyResult (5 - level) self.old self.new result }
    {
        let item = self.item(level)?;
        self.skip_content(item, level)
    }

    /// Skips an item with its content, and returns the head of the item.
    pub fn read_whole_item(&mut self, level: u8) -> Result<Item<'a>, Fault>
        requires low { 1 ≤ level }
        requires high { level ≤ 5 }
        ensures { MatchResult result
            (λ i. PassesHead (5 - level) (to_part i) self.old self.new)
            (λ f. Fails (5 - level) self.old self.new f.at f.kind) }
    {
        let item = self.item(level)?;
        self.skip_content(item, level)?;
        Ok(item)
    }

    /// Skips the content of an item whose head was read just before. The item is at this nesting level.
    #[cycle(skip)]
    pub(crate) fn skip_content(&mut self, item: Item<'a>, level: u8) -> Result<(), Fault>
        requires low { 1 ≤ level }
        requires high { level ≤ 5 }
        requires suits { IsAllowed (5 - level) AnItem (to_part item) }
        ensures passes { (start : Reading) → TakesItem (5 - level) start self.old (to_part item.entry) → MatchResult result
            (λ _. PassesHead (5 - level) (to_part item.entry) start self.new)
            (λ f. Fails (5 - level) start self.new f.at f.kind) }

        // The position and the step count don't decrease.
        ensures onward { MovesOn self.old self.new }
    {
        match item {
            Item::Array(count) => {
                for done in 0..count {
                    self.skip(level + 1)?;
                }
                Ok(())
            }
            Item::Map(count) => {
                let mut previous = None;
                for done in 0..count {
                    let key = self.key(previous)?;
                    previous = Some(key.bytes);
                    self.skip(level + 1)?;
                }
                Ok(())
            }
            _ => Ok(()),
        }
    }

    /// Checks that no byte is left. If bytes are left, fails with [`Kind::Trailing`], and the cursor doesn't move.
    pub fn end(&mut self) -> Result<(), Fault>
        ensures { MatchResult result (λ _. HasNoByteLeft self.old self.new) (λ f. HasTrailingBytes self.old self.new f.at f.kind) }
    {
        let at = self.place;
        if self.rest().is_empty() {
            self.pass(0, 1);
            Ok(())
        } else {
            Err(Fault {
                at,
                kind: Kind::Trailing,
            })
        }
    }

    /// Moves the cursor back to the first byte. The step count is unchanged.
    pub fn rewind(&mut self)
        ensures { self.new ≡ record { bytes = self.old.bytes; place = 0; steps = self.old.steps } }
    {
        self.place = 0;
    }

    /// Returns the bytes from position `place` to the cursor, such as the encoding of an array that was read just
    /// before.
    pub fn bytes_since(&self, place: usize) -> &'a [u8]
        requires { place ≤ self.now.place }
        ensures { result.now ≡ take (self.now.place - place) (drop place self.now.bytes) }
    {
        &self.bytes[place..self.place]
    }

    /// Returns the bytes from the cursor on.
    fn rest(&self) -> &'a [u8]
        ensures rest { result.now ≡ rest_of self.now }
        ensures bytes { AreBytes result.now }
    {
        let rest = &self.bytes[self.place..];
        byte_bounds(rest);
        rest
    }

    /// Moves the cursor forward by `len` bytes, and adds `more` steps.
    fn pass(&mut self, len: usize, more: usize)
        requires { len ≤ length (rest_of self.old) }
        ensures { self.new ≡ advance self.old len (len + more) }
    {
        self.place += len;
        self.steps = self
            .steps
            .saturating_add(len as u64)
            .saturating_add(more as u64);
    }
}

/// Returns the number of steps for detecting an error: 1 for the end of the input, or else 0.
fn end_steps(kind: Kind) -> usize
    ensures { result ≡ end_steps_of kind }
{
    match kind {
        Kind::Truncated => 1,
        _ => 0,
    }
}
