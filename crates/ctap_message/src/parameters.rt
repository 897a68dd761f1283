//! The parameter pubKeyCredParams: the algorithms that a relying party accepts (WebAuthn Level 2, section 5.3).

ghost use Rattle.ctap_message.specs.Members.{map_of};
ghost use Rattle.ctap_message.specs.Collected.{HasPairs, HasEntries};
ghost use Rattle.ctap_message.specs.Members.{parameter_types};
ghost use Rattle.ctap_message.specs.Fields.{parameter_in, parameters_in};
ghost use Rattle.ctap_message.specs.Collected.{to_parameter, to_parameters};

use crate::item::PUBLIC_KEY;
use ctap_cbor::{Cursor, Entries, Fault, Item, Members, read_map};

/// ES256 as a COSE algorithm.
const ES256: i128 = -7;

/// The members of a credential parameter that were read so far.
#[derive(Clone, Copy, Drop)]
struct Parameter<'a> {
    pub alg: Option<i128>,
    pub kind: Option<&'a str>,
}

impl<'a> Members<'a> for Parameter<'a> {
    ghost Holds = { λ x ok ps. HasPairs parameter_types parameter_in (to_parameter x) ok ps };

    fn member(&mut self, cursor: &mut Cursor<'a>, key: Item<'a>, level: u8) -> Result<bool, Fault> {
        let value = cursor.read_whole_item(level)?;
        let typed = match key {
            Item::Text("alg") => {
                self.alg = value.as_int();
                self.alg.is_some()
            }
            Item::Text("type") => {
                self.kind = value.as_text();
                self.kind.is_some()
            }
            _ => true,
        };
        Ok(typed)
    }
}

/// The summary of the entries of pubKeyCredParams that were read so far.
#[derive(Clone, Copy, Drop)]
pub(crate) struct Parameters {
    pub is_whole: bool,
    pub has_es256: bool,
}

impl Parameters {
    /// No entry is present.
    pub const NONE: Parameters = Parameters {
        is_whole: true,
        has_es256: false,
    };
}

impl<'a> Entries<'a> for Parameters {
    ghost HoldsAll = { λ x ok ts. HasEntries (map_of parameter_types) parameters_in (to_parameters x) ok ts };

    fn entry(&mut self, cursor: &mut Cursor<'a>, level: u8) -> Result<bool, Fault> {
        let mut parameter = Parameter {
            alg: None,
            kind: None,
        };
        let typed = read_map(&mut parameter, cursor, level)?;
        self.is_whole &= parameter.alg.is_some() && parameter.kind.is_some();
        self.has_es256 |= parameter.alg == Some(ES256) && parameter.kind == Some(PUBLIC_KEY);
        Ok(typed)
    }
}
