//! Iteration over CBOR maps.

use ctap_cbor::{Cursor, Item};

/// The pairs of a CBOR map, in order.
#[derive(Drop)]
pub struct Pairs<'a> {
    item: &'a [u8],
    cursor: Cursor<'a>,
    /// Number of remaining pairs.
    pub count: u64,
}

impl<'a> Pairs<'a> {
    /// Returns the pairs of a map, or none if the bytes are another item.
    pub fn of(item: &'a [u8]) -> Option<Self> {
        let mut cursor = Cursor::new(item);
        match cursor.item(1) {
            Ok(Item::Map(count)) => Some(Pairs {
                item,
                cursor,
                count,
            }),
            _ => None,
        }
    }

    /// Returns the next key and the bytes of its value.
    pub fn next_pair(&mut self) -> Option<(Item<'a>, &'a [u8])> {
        let Ok(key) = self.cursor.item(2) else {
            return None;
        };
        match next_value(&mut self.cursor, self.item) {
            Some(value) => Some((key, value)),
            None => None,
        }
    }
}

/// Skips the next item of a map or an array, and returns its bytes.
pub fn next_value<'a>(cursor: &mut Cursor<'a>, item: &'a [u8]) -> Option<&'a [u8]> {
    let start = cursor.place();
    if cursor.skip(2).is_err() {
        return None;
    }
    item.get(start..cursor.place())
}

/// Returns the bytes of the value at this key, or `None` if `item` isn't a map with this key.
pub fn value_at<'a>(item: &'a [u8], wanted: Item<'_>) -> Option<&'a [u8]> {
    let Some(mut pairs) = Pairs::of(item) else {
        return None;
    };
    for _ in 0..pairs.count {
        let Some((key, value)) = pairs.next_pair() else {
            return None;
        };
        if key == wanted {
            return Some(value);
        }
    }
    None
}

/// Returns the item at this key, or `None` if `item` isn't a map with this key.
pub fn item_at<'a>(item: &'a [u8], wanted: Item<'_>) -> Option<Item<'a>> {
    let Some(value) = value_at(item, wanted) else {
        return None;
    };
    match Cursor::new(value).item(1) {
        Ok(item) => Some(item),
        Err(_) => None,
    }
}
