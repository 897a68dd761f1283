//! The errors of parsing a request.

ghost use Rattle.std.specs.Prelude.{◌≡◌};
ghost use Rattle.ctap_message.specs.RequestFaults.{status_of};

use crate::status::Status;
use ctap_cbor::Fault;

/// An error of parsing a request: the first check that fails, with the values that were compared. A parameter is
/// identified by its key (CTAP 2.1, sections 6.1 and 6.2).
#[derive(Clone, Copy, Debug, PartialEq, Eq)]
pub enum RequestFault {
    /// The message has no command byte.
    Empty,
    /// The command isn't supported.
    NoSuchCommand { byte: u8 },
    /// The command has no parameters, but this many bytes follow the command byte.
    Trailing { count: usize },
    /// The parameters aren't in canonical CBOR (section 8).
    NotCanonical(Fault),
    /// A parameter, or a member in a parameter, has the wrong type.
    WrongType,
    /// A required parameter is missing, or the ID in rp or user is.
    Missing { command: u8, parameter: u8 },
    /// An entry of a list has no ID, type or algorithm.
    EntryNotWhole { command: u8, parameter: u8 },
    /// clientDataHash has this many bytes instead of 32.
    HashLength { len: usize },
    /// user.id has this many bytes, more than 64.
    UserIdLength { len: usize },
    /// The parameter pinUvAuthParam is present, although no PIN is set.
    PinUvAuthParam,
    /// No entry of pubKeyCredParams is for ES256.
    NoAlgorithm,
    /// The option uv is true.
    UvOption,
    /// The option up is false in authenticatorMakeCredential.
    UpOption,
    /// The option rk is present in authenticatorGetAssertion.
    RkOption,
    /// The parameter enterpriseAttestation is present.
    EnterpriseAttestation,
}

impl RequestFault {
    /// Returns the status code of the response (CTAP 2.1, section 8.2, "Status codes").
    pub fn status(self) -> Status
        ensures { result.0 ≡ status_of self }
    {
        match self {
            RequestFault::Empty
            | RequestFault::Trailing { .. }
            | RequestFault::HashLength { .. }
            | RequestFault::UserIdLength { .. } => Status::INVALID_LENGTH,
            RequestFault::NoSuchCommand { .. } => Status::INVALID_COMMAND,
            RequestFault::NotCanonical(_) => Status::INVALID_CBOR,
            RequestFault::WrongType => Status::CBOR_UNEXPECTED_TYPE,
            RequestFault::Missing { .. } | RequestFault::EntryNotWhole { .. } => {
                Status::MISSING_PARAMETER
            }
            RequestFault::PinUvAuthParam | RequestFault::EnterpriseAttestation => {
                Status::INVALID_PARAMETER
            }
            RequestFault::NoAlgorithm => Status::UNSUPPORTED_ALGORITHM,
            RequestFault::UvOption | RequestFault::UpOption => Status::INVALID_OPTION,
            RequestFault::RkOption => Status::UNSUPPORTED_OPTION,
        }
    }
}
