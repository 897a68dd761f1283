//! The parameters of authenticatorMakeCredential (CTAP 2.1, section 6.1).

ghost use Rattle.std.specs.Prelude.{◌⊎◌, MatchResult};
ghost use Rattle.ctap_cbor.specs.Reading.{Reading, PassesOne, Fails, HasNoByteLeft, HasTrailingBytes};
ghost use Rattle.ctap_message.specs.Members.{map_of};
ghost use Rattle.ctap_message.specs.Collected.{Reads, typed, HasPairs};
ghost use Rattle.ctap_message.specs.Requests.{make_types};
ghost use Rattle.ctap_message.specs.Collected.{make_in, to_make_parameters};

use crate::descriptor::{DescriptorList, read_list};
use crate::descriptors::Descriptors;
use crate::item::is_map_item;
use crate::options::Options;
use crate::parameters::Parameters;
use crate::rp::Rp;
use crate::user::User;
use ctap_cbor::{Cursor, Fault, Item, Members, read_array, read_map};

/// The parameters of authenticatorMakeCredential that were read so far.
#[derive(Drop)]
pub(crate) struct Make<'a> {
    pub hash: Option<&'a [u8]>,
    pub rp: Rp<'a>,
    pub user: User<'a>,
    pub has_parameters: bool,
    pub parameters: Parameters,
    pub exclude: DescriptorList<'a>,
    pub options: Options,
    pub pin_uv_auth_param: Option<&'a [u8]>,
    pub enterprise_attestation: Option<u64>,
}

impl<'a> Members<'a> for Make<'a> {
    ghost Holds = { λ x ok ps. HasPairs make_types make_in (to_make_parameters x) ok ps };

    fn member(&mut self, cursor: &mut Cursor<'a>, key: Item<'a>, level: u8) -> Result<bool, Fault> {
        match key {
            Item::Int(0x02) => {
                self.rp = Rp { id: None };
                read_map(&mut self.rp, cursor, level)
            }
            Item::Int(0x03) => {
                self.user = User {
                    id: None,
                    name: None,
                };
                read_map(&mut self.user, cursor, level)
            }
            Item::Int(0x04) => {
                self.has_parameters = true;
                self.parameters = Parameters::NONE;
                read_array(&mut self.parameters, cursor, level)
            }
            Item::Int(0x05) => read_list(&mut self.exclude, cursor, level),
            Item::Int(0x07) => {
                self.options = Options::NONE;
                read_map(&mut self.options, cursor, level)
            }
            _ => {
                let value = cursor.read_whole_item(level)?;
                match key {
                    Item::Int(0x01) => {
                        self.hash = value.as_bytes();
                        Ok(self.hash.is_some())
                    }
                    Item::Int(0x06) => Ok(is_map_item(value)),
                    Item::Int(0x08) => {
                        self.pin_uv_auth_param = value.as_bytes();
                        Ok(self.pin_uv_auth_param.is_some())
                    }
                    Item::Int(0x09) => Ok(value.as_uint().is_some()),
                    Item::Int(0x0a) => {
                        self.enterprise_attestation = value.as_uint();
                        Ok(self.enterprise_attestation.is_some())
                    }
                    _ => Ok(true),
                }
            }
        }
    }
}

/// Reads all parameters of a request. Returns whether the parameters have the required types.
pub(crate) fn parse_make_credential<'a>(cursor: &mut Cursor<'a>) -> Result<(bool, Make<'a>), Fault>
    ensures { MatchResult result
        (λ r. (middle : Reading) × Reads (typed (map_of make_types) make_in) 4 (r.0, to_make_parameters r.1) cursor.old middle
        × HasNoByteLeft middle cursor.new)
        (λ f. Fails 4 cursor.old cursor.new f.at f.kind
        ⊎ ((middle : Reading) × PassesOne 4 cursor.old middle × HasTrailingBytes middle cursor.new f.at f.kind)) }
{
    let mut found = Make {
        hash: None,
        rp: Rp { id: None },
        user: User {
            id: None,
            name: None,
        },
        has_parameters: false,
        parameters: Parameters::NONE,
        exclude: DescriptorList {
            is_whole: true,
            list: Descriptors::none(),
        },
        options: Options::NONE,
        pin_uv_auth_param: None,
        enterprise_attestation: None,
    };
    let typed = read_map(&mut found, cursor, 1)?;
    cursor.end()?;
    Ok((typed, found))
}
