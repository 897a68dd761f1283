//! The parameter `user`: the user account (WebAuthn Level 2, section 5.4.3).

ghost use Rattle.ctap_message.specs.Collected.{HasPairs};
ghost use Rattle.ctap_message.specs.Requests.{user_types};
ghost use Rattle.ctap_message.specs.Fields.{user_in};
ghost use Rattle.ctap_message.specs.Collected.{to_user};

use ctap_cbor::{Cursor, Fault, Item, Members};

/// The members of the parameter user that were read so far.
#[derive(Clone, Copy, Drop)]
pub(crate) struct User<'a> {
    pub id: Option<&'a [u8]>,
    pub name: Option<&'a str>,
}

impl<'a> Members<'a> for User<'a> {
    ghost Holds = { λ x ok ps. HasPairs user_types user_in (to_user x) ok ps };

    fn member(&mut self, cursor: &mut Cursor<'a>, key: Item<'a>, level: u8) -> Result<bool, Fault> {
        let value = cursor.read_whole_item(level)?;
        let typed = match key {
            Item::Text("id") => {
                self.id = value.as_bytes();
                self.id.is_some()
            }
            Item::Text("name") => {
                self.name = value.as_text();
                self.name.is_some()
            }
            Item::Text("displayName") => value.as_text().is_some(),
            _ => true,
        };
        Ok(typed)
    }
}
