//! The errors that a page gets when a call fails.

ghost use Rattle.std.specs.Prelude.{◌≡◌};
ghost use Rattle.webauthn_client.specs.declared.rejection.DomError.TheVariants.{«Type», NotAllowed, Range};

/// The name of a DOM exception that a page gets.
#[derive(Clone, Copy, Debug, PartialEq, Eq)]
pub enum DomError {
    Type,
    Encoding,
    Range,
    NotSupported,
    Security,
    NotAllowed,
    InvalidState,
    Syntax,
}

impl DomError {
    /// Returns the exception's `name`.
    pub fn name(self) -> &'static str {
        match self {
            DomError::Type => "TypeError",
            DomError::Encoding => "EncodingError",
            DomError::Range => "RangeError",
            DomError::NotSupported => "NotSupportedError",
            DomError::Security => "SecurityError",
            DomError::NotAllowed => "NotAllowedError",
            DomError::InvalidState => "InvalidStateError",
            DomError::Syntax => "SyntaxError",
        }
    }
}

/// An error: the name of the DOM exception, the name of the invalid option (empty if no option is invalid), and the
/// reason.
#[derive(Clone, Copy)]
pub struct Rejection {
    pub error: DomError,
    pub member: &'static str,
    pub reason: &'static str,
}

/// Returns the error for a member of the wrong type.
pub fn type_error(member: &'static str, reason: &'static str) -> Rejection
    ensures error { result.error ≡ «Type» }
    ensures member { result.member.now ≡ member.now }
{
    Rejection {
        error: DomError::Type,
        member,
        reason,
    }
}

/// Returns the error for a call that the authenticator or the user rejects.
pub fn not_allowed(reason: &'static str) -> Rejection
    ensures { result.error ≡ NotAllowed }
{
    Rejection {
        error: DomError::NotAllowed,
        member: "",
        reason,
    }
}

/// Returns the error for a value that this client can't store or convert.
pub fn range_error(reason: &'static str) -> Rejection
    ensures { result.error ≡ Range }
{
    Rejection {
        error: DomError::Range,
        member: "",
        reason,
    }
}

/// Returns the error for a string or list that is too long for this client's buffers.
pub fn too_long() -> Rejection
    ensures { result.error ≡ Range }
{
    range_error("a string or a list is longer than the client's buffer")
}
