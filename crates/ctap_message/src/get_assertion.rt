//! The parameters of authenticatorGetAssertion (CTAP 2.1, section 6.2).

ghost use Rattle.std.specs.Prelude.{◌⊎◌, MatchResult};
ghost use Rattle.ctap_cbor.specs.Reading.{Reading, PassesOne, Fails, HasNoByteLeft, HasTrailingBytes};
ghost use Rattle.ctap_message.specs.Members.{map_of};
ghost use Rattle.ctap_message.specs.Collected.{Reads, typed, HasPairs};
ghost use Rattle.ctap_message.specs.Requests.{assertion_types};
ghost use Rattle.ctap_message.specs.Collected.{assertion_in, to_assertion_parameters};

use crate::descriptor::{DescriptorList, read_list};
use crate::descriptors::Descriptors;
use crate::item::is_map_item;
use crate::options::Options;
use ctap_cbor::{Cursor, Fault, Item, Members, read_map};

/// The parameters of authenticatorGetAssertion that were read so far.
#[derive(Drop)]
pub(crate) struct Assert<'a> {
    pub rp_id: Option<&'a str>,
    pub hash: Option<&'a [u8]>,
    pub allow: DescriptorList<'a>,
    pub options: Options,
    pub pin_uv_auth_param: Option<&'a [u8]>,
}

impl<'a> Members<'a> for Assert<'a> {
    ghost Holds = { λ x ok ps. HasPairs assertion_types assertion_in (to_assertion_parameters x) ok ps };

    fn member(&mut self, cursor: &mut Cursor<'a>, key: Item<'a>, level: u8) -> Result<bool, Fault> {
        match key {
            Item::Int(0x03) => read_list(&mut self.allow, cursor, level),
            Item::Int(0x05) => {
                self.options = Options::NONE;
                read_map(&mut self.options, cursor, level)
            }
            _ => {
                let value = cursor.read_whole_item(level)?;
                match key {
                    Item::Int(0x01) => {
                        self.rp_id = value.as_text();
                        Ok(self.rp_id.is_some())
                    }
                    Item::Int(0x02) => {
                        self.hash = value.as_bytes();
                        Ok(self.hash.is_some())
                    }
                    Item::Int(0x04) => Ok(is_map_item(value)),
                    Item::Int(0x06) => {
                        self.pin_uv_auth_param = value.as_bytes();
                        Ok(self.pin_uv_auth_param.is_some())
                    }
                    Item::Int(0x07) => Ok(value.as_uint().is_some()),
                    _ => Ok(true),
                }
            }
        }
    }
}

/// Reads all parameters of a request. Returns whether the parameters have the required types.
pub(crate) fn parse_get_assertion<'a>(cursor: &mut Cursor<'a>) -> Result<(bool, Assert<'a>), Fault>
    ensures { MatchResult result
        (λ r. (middle : Reading) × Reads (typed (map_of assertion_types) assertion_in) 4 (r.0, to_assertion_parameters r.1)
        cursor.old middle × HasNoByteLeft middle cursor.new)
        (λ f. Fails 4 cursor.old cursor.new f.at f.kind
        ⊎ ((middle : Reading) × PassesOne 4 cursor.old middle × HasTrailingBytes middle cursor.new f.at f.kind)) }
{
    let mut found = Assert {
        rp_id: None,
        hash: None,
        allow: DescriptorList {
            is_whole: true,
            list: Descriptors::none(),
        },
        options: Options::NONE,
        pin_uv_auth_param: None,
    };
    let typed = read_map(&mut found, cursor, 1)?;
    cursor.end()?;
    Ok((typed, found))
}
