//! An iterator over the credential IDs in a list of descriptors, which reads the bytes of the message.

ghost use Rattle.std.specs.Prelude.{◌≡◌, ◌<◌, ◌≤◌, MatchOption};
ghost use Rattle.std.specs.Option.{option_copied};
ghost use Rattle.std.specs.Iterator.{at_most};
ghost use Rattle.ctap_cbor.specs.Tree.{Trees, no_trees};
ghost use Rattle.ctap_message.specs.Members.{has_entries};
ghost use Rattle.ctap_message.specs.Members.{ids_of};
ghost use Rattle.ctap_message.specs.DescriptorWalk.{DescriptorWalk, list_of, left_of, IsAtFirst, walked_steps, NextId, HasEntriesLeft, YieldsId, IsList};

use crate::descriptor::read_descriptor;
use ctap_cbor::laws::{
    byte_bounds, canonical_is_accepted, cursor_reads_one_tree, items_are_decoded,
    outcomes_are_computed,
};
use ctap_cbor::{Cursor, Item};
use std::marker::Model;

/// An iterator over the IDs of a list's entries of type `public-key`, in order. The IDs are borrowed from the message.
/// Iterating reads the bytes of the list a second time; [`Descriptors::steps`] counts the steps of this second reading.
/// A list that is absent from the request has no entries.
#[derive(Drop)]
pub struct Descriptors<'a> {
    /// A cursor at the next entry.
    cursor: Cursor<'a>,
    /// The number of entries that haven't been read yet.
    left: u64,
    given: bool,
}

// In contracts, this is all entries of the list, and those that haven't been read yet.
impl<'a> Model for Descriptors<'a> {
    ghost use Rattle.ctap_message.specs.DescriptorWalk.{DescriptorWalk, IsValidWalk};

    ghost Value = { DescriptorWalk };

    ghost view = { λ s. record { cursor = s.cursor; count = s.left } };

    ghost invariant = { λ s. IsValidWalk (record { cursor = s.cursor; count = s.left }) s.given };
}

impl<'a> Descriptors<'a> {
    /// Returns an iterator for a list that is absent from the request.
    pub(crate) fn none() -> Self
        ensures { IsAtFirst result no_trees }
    {
        Descriptors {
            cursor: Cursor::new(b""),
            left: 0,
            given: false,
        }
    }

    /// Returns an iterator for a list with entries.
    pub(crate) fn from_entries(list: &'a [u8]) -> Self
        requires { (ts : Trees) × IsList list.now ts }
        ensures { (ts : Trees) → IsList list.now ts → IsAtFirst result ts }
    {
        byte_bounds(list);
        outcomes_are_computed();
        items_are_decoded();
        let mut cursor = Cursor::new(list);
        let Ok(item) = cursor.item(1) else {
            unreachable!()
        };
        let Item::Array(left) = item else {
            unreachable!()
        };
        Descriptors {
            cursor,
            left,
            given: true,
        }
    }

    /// Returns whether the list has any entry, of any type. This doesn't depend on the position of the iterator.
    pub fn is_given(&self) -> bool
        ensures { result ≡ has_entries (list_of self.now) }
    {
        self.given
    }

    /// Returns the number of steps so far. At the end of the list, it is one less than the number of steps of checking
    /// the bytes of the list, because the end of the input isn't checked.
    pub fn steps(&self) -> u64
        ensures { result ≡ walked_steps self.now }
    {
        self.cursor.steps()
    }
}

impl<'a> Iterator for Descriptors<'a> {
    type Item = &'a [u8];

    ghost next_gives = { NextId };

    ghost remaining = { λ w. at_most w.count };

    fn next(&mut self) -> Option<&'a [u8]> {
        items_are_decoded();
        cursor_reads_one_tree();
        canonical_is_accepted();
        while self.left > 0 {
            self.left -= 1;
            let Ok((_, descriptor)) = read_descriptor(&mut self.cursor, 2) else {
                unreachable!()
            };
            let id = descriptor.public_key_id();
            if id.is_some() {
                return id;
            }
        }
        None
    }
}
