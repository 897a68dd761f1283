//! The parameter `options`: whether a credential is discoverable (rk), user presence (up), and user verification (uv).

ghost use Rattle.ctap_message.specs.Collected.{HasPairs};
ghost use Rattle.ctap_message.specs.Members.{option_types};
ghost use Rattle.ctap_message.specs.Fields.{options_in};
ghost use Rattle.ctap_message.specs.Collected.{to_options};

use ctap_cbor::{Cursor, Fault, Item, Members};

/// The options that were read so far.
#[derive(Clone, Copy, Drop)]
pub(crate) struct Options {
    pub rk: Option<bool>,
    pub up: Option<bool>,
    pub uv: Option<bool>,
}

impl Options {
    /// No option is present.
    pub const NONE: Options = Options {
        rk: None,
        up: None,
        uv: None,
    };
}

impl<'a> Members<'a> for Options {
    ghost Holds = { λ x ok ps. HasPairs option_types options_in (to_options x) ok ps };

    fn member(&mut self, cursor: &mut Cursor<'a>, key: Item<'a>, level: u8) -> Result<bool, Fault> {
        let value = cursor.read_whole_item(level)?;
        let typed = match key {
            Item::Text("rk") => {
                self.rk = value.as_bool();
                self.rk.is_some()
            }
            Item::Text("up") => {
                self.up = value.as_bool();
                self.up.is_some()
            }
            Item::Text("uv") => {
                self.uv = value.as_bool();
                self.uv.is_some()
            }
            _ => true,
        };
        Ok(typed)
    }
}
