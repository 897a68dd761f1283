//! Credential descriptors (WebAuthn Level 2, section 5.8.3), and lists of descriptors.

ghost use Rattle.std.specs.Prelude.{◌≡◌, ◌-◌, ◌≤◌, MatchResult};
ghost use Rattle.ctap_cbor.specs.Views.{to_part, head_tree};
ghost use Rattle.ctap_cbor.specs.Reading.{Fails};
ghost use Rattle.std.specs.Option.{option_copied};
ghost use Rattle.ctap_message.specs.Members.{is_text, has_listed_type, array_of, map_of, all_entries};
ghost use Rattle.ctap_message.specs.Collected.{Reads, typed, HasPairs, HasEntries};
ghost use Rattle.ctap_message.specs.Members.{descriptor_types};
ghost use Rattle.ctap_message.specs.Fields.{descriptor_in, id_of_public_key, is_complete_descriptor};
ghost use Rattle.ctap_message.specs.Collected.{to_descriptor, descriptor_next, IsPlainName, listing_in, to_list_summary, list_in, to_descriptor_list};

use crate::descriptors::Descriptors;
use crate::item::PUBLIC_KEY;
use ctap_cbor::{Cursor, Entries, Fault, Item, Members, read_array, read_map};

/// A collector that accepts only text strings.
#[derive(Drop)]
struct TextStrings;

impl<'a> Entries<'a> for TextStrings {
    ghost HoldsAll = { λ _ ok ts. ok ≡ all_entries is_text ts };

    fn entry(&mut self, cursor: &mut Cursor<'a>, level: u8) -> Result<bool, Fault> {
        let value = cursor.read_whole_item(level)?;
        Ok(value.as_text().is_some())
    }
}

/// Reads an item, and returns whether it is an array of text strings.
fn read_texts(cursor: &mut Cursor<'_>, level: u8) -> Result<bool, Fault>
    requires low { 1 ≤ level }
    requires high { level ≤ 5 }
    ensures { MatchResult result
        (λ is. Reads (array_of is_text) (5 - level) is cursor.old cursor.new)
        (λ f. Fails (5 - level) cursor.old cursor.new f.at f.kind) }
{
    read_array(&mut TextStrings, cursor, level)
}

/// The members of a descriptor that were read so far.
#[derive(Clone, Copy, Drop)]
pub(crate) struct Descriptor<'a> {
    pub id: Option<&'a [u8]>,
    pub kind: Option<&'a str>,
}

impl<'a> Descriptor<'a> {
    /// Returns the ID of a descriptor of type `public-key`, or `None` for other types.
    pub fn public_key_id(&self) -> Option<&'a [u8]>
        ensures { option_copied result ≡ id_of_public_key (to_descriptor self.now) }
    {
        if self.kind == Some(PUBLIC_KEY) {
            self.id
        } else {
            None
        }
    }

    /// Returns whether the descriptor has an ID and a type.
    fn is_whole(&self) -> bool
        ensures { result ≡ is_complete_descriptor (to_descriptor self.now) }
    {
        self.id.is_some() && self.kind.is_some()
    }

    /// Stores the member if it is the ID or the type. Returns false if the value has the wrong type.
    fn put(&mut self, key: Item<'a>, value: Item<'a>) -> bool
        requires plain { IsPlainName (head_tree (to_part key)) }
        ensures plain { IsPlainName (head_tree (to_part key.entry)) }
        ensures typed { result ≡ has_listed_type descriptor_types (head_tree (to_part key.entry))
            (head_tree (to_part value.entry)) }
        ensures value { to_descriptor self.new ≡ descriptor_next (head_tree (to_part key.entry))
            (head_tree (to_part value.entry)) (to_descriptor self.old) }
    {
        match key {
            Item::Text("id") => {
                self.id = value.as_bytes();
                self.id.is_some()
            }
            Item::Text("type") => {
                self.kind = value.as_text();
                self.kind.is_some()
            }
            _ => true,
        }
    }
}

impl<'a> Members<'a> for Descriptor<'a> {
    ghost Holds = { λ x ok ps. HasPairs descriptor_types descriptor_in (to_descriptor x) ok ps };

    fn member(&mut self, cursor: &mut Cursor<'a>, key: Item<'a>, level: u8) -> Result<bool, Fault> {
        match key {
            Item::Text("transports") => read_texts(cursor, level),
            _ => {
                let value = cursor.read_whole_item(level)?;
                Ok(self.put(key, value))
            }
        }
    }
}

/// Reads a descriptor. Returns whether it is a map whose members have the required types.
pub(crate) fn read_descriptor<'a>(
    cursor: &mut Cursor<'a>,
    level: u8,
) -> Result<(bool, Descriptor<'a>), Fault>
    requires low { 1 ≤ level }
    requires high { level ≤ 5 }
    ensures { MatchResult result
        (λ r. Reads (typed (map_of descriptor_types) descriptor_in) (5 - level) (r.0, to_descriptor r.1)
        cursor.old cursor.new)
        (λ f. Fails (5 - level) cursor.old cursor.new f.at f.kind) }
{
    let mut found = Descriptor {
        id: None,
        kind: None,
    };
    let typed = read_map(&mut found, cursor, level)?;
    Ok((typed, found))
}

/// The summary of those entries of a list of descriptors that were read so far.
#[derive(Clone, Copy, Drop)]
struct ListSummary {
    is_whole: bool,
    given: bool,
}

impl<'a> Entries<'a> for ListSummary {
    ghost HoldsAll = { λ x ok ts. HasEntries (map_of descriptor_types) listing_in (to_list_summary x) ok ts };

    fn entry(&mut self, cursor: &mut Cursor<'a>, level: u8) -> Result<bool, Fault> {
        let (typed, descriptor) = read_descriptor(cursor, level)?;
        self.is_whole &= descriptor.is_whole();
        self.given = true;
        Ok(typed)
    }
}

/// The summary of a list of descriptors, and an iterator over the list.
#[derive(Drop)]
pub(crate) struct DescriptorList<'a> {
    pub is_whole: bool,
    pub list: Descriptors<'a>,
}

/// Reads a list of descriptors. Returns whether it is an array of maps whose members have the required types.
pub(crate) fn read_list<'a>(
    list: &mut DescriptorList<'a>,
    cursor: &mut Cursor<'a>,
    level: u8,
) -> Result<bool, Fault>
    requires low { 1 ≤ level }
    requires high { level ≤ 5 }
    ensures { MatchResult result
        (λ is. Reads (typed (array_of (map_of descriptor_types)) list_in) (5 - level) (is, to_descriptor_list list.new)
        cursor.old cursor.new)
        (λ f. Fails (5 - level) cursor.old cursor.new f.at f.kind) }
{
    let from = cursor.place();
    let mut found = ListSummary {
        is_whole: true,
        given: false,
    };
    let typed = read_array(&mut found, cursor, level)?;
    list.is_whole = found.is_whole;
    list.list = if found.given {
        Descriptors::from_entries(cursor.bytes_since(from))
    } else {
        Descriptors::none()
    };
    Ok(typed)
}
