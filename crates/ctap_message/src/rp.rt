//! The parameter `rp`: the relying party (WebAuthn Level 2, section 5.4.2).

ghost use Rattle.ctap_message.specs.Collected.{HasPairs};
ghost use Rattle.ctap_message.specs.Requests.{rp_types};
ghost use Rattle.ctap_message.specs.Fields.{rp_in};
ghost use Rattle.ctap_message.specs.Collected.{to_rp};

use ctap_cbor::{Cursor, Fault, Item, Members};

/// The members of the parameter rp that were read so far.
#[derive(Clone, Copy, Drop)]
pub(crate) struct Rp<'a> {
    pub id: Option<&'a str>,
}

impl<'a> Members<'a> for Rp<'a> {
    ghost Holds = { λ x ok ps. HasPairs rp_types rp_in (to_rp x) ok ps };

    fn member(&mut self, cursor: &mut Cursor<'a>, key: Item<'a>, level: u8) -> Result<bool, Fault> {
        let value = cursor.read_whole_item(level)?;
        let typed = match key {
            Item::Text("id") => {
                self.id = value.as_text();
                self.id.is_some()
            }
            Item::Text("name") => value.as_text().is_some(),
            _ => true,
        };
        Ok(typed)
    }
}
