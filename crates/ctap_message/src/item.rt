//! Helpers for items.

ghost use Rattle.std.specs.Prelude.{◌≡◌};
ghost use Rattle.ctap_cbor.specs.Views.{to_part, head_tree};
ghost use Rattle.ctap_cbor.specs.Tree.{is_map};

use ctap_cbor::Item;

/// Returns whether an item is a map.
pub(crate) fn is_map_item(item: Item<'_>) -> bool
    ensures { result ≡ is_map (head_tree (to_part item.entry)) }
{
    matches!(item, Item::Map(_))
}

/// The credential type that descriptors and parameters must have.
pub(crate) const PUBLIC_KEY: &str = "public-key";
