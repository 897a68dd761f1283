//! Status codes.

/// The first byte of a response: 0x00 for success, or else an error (CTAP 2.1, section 8.2, "Status codes").
#[derive(Clone, Copy, Debug, PartialEq, Eq)]
pub struct Status(pub u8);

impl Status {
    /// 0x00, CTAP2_OK: the command succeeded.
    pub const OK: Status = Status(0x00);

    /// 0x01, CTAP1_ERR_INVALID_COMMAND: the command isn't supported.
    pub const INVALID_COMMAND: Status = Status(0x01);

    /// 0x02, CTAP1_ERR_INVALID_PARAMETER: an unsupported parameter.
    pub const INVALID_PARAMETER: Status = Status(0x02);

    /// 0x03, CTAP1_ERR_INVALID_LENGTH: the message, the client data hash or the user ID has a wrong length.
    pub const INVALID_LENGTH: Status = Status(0x03);

    /// 0x11, CTAP2_ERR_CBOR_UNEXPECTED_TYPE: a parameter, or a member in a parameter, has the wrong type.
    pub const CBOR_UNEXPECTED_TYPE: Status = Status(0x11);

    /// 0x12, CTAP2_ERR_INVALID_CBOR: the parameters aren't in canonical CBOR.
    pub const INVALID_CBOR: Status = Status(0x12);

    /// 0x14, CTAP2_ERR_MISSING_PARAMETER: a parameter, or a member in a parameter, is missing.
    pub const MISSING_PARAMETER: Status = Status(0x14);

    /// 0x26, CTAP2_ERR_UNSUPPORTED_ALGORITHM: the request contains no supported algorithm.
    pub const UNSUPPORTED_ALGORITHM: Status = Status(0x26);

    /// 0x2b, CTAP2_ERR_UNSUPPORTED_OPTION: an unsupported option.
    pub const UNSUPPORTED_OPTION: Status = Status(0x2b);

    /// 0x2c, CTAP2_ERR_INVALID_OPTION: an option has an invalid value.
    pub const INVALID_OPTION: Status = Status(0x2c);

    /// 0x2d, CTAP2_ERR_KEEPALIVE_CANCEL: the host cancelled the pending request.
    pub const KEEPALIVE_CANCEL: Status = Status(0x2d);
}
