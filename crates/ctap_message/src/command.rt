//! The supported commands.

ghost use Rattle.std.specs.Prelude.{◌≡◌};
ghost use Rattle.ctap_message.specs.Requests.{named_command};

/// A supported command. The first byte of a message identifies its command (CTAP 2.1, section 8.1, "Commands").
#[derive(Clone, Copy, Debug, PartialEq, Eq)]
pub enum Command {
    /// 0x01, authenticatorMakeCredential.
    MakeCredential,
    /// 0x02, authenticatorGetAssertion.
    GetAssertion,
    /// 0x04, authenticatorGetInfo.
    GetInfo,
    /// 0x07, authenticatorReset.
    Reset,
    /// 0x08, authenticatorGetNextAssertion.
    GetNextAssertion,
    /// 0x0b, authenticatorSelection.
    Selection,
}

impl Command {
    /// Returns the command with this byte, or `None` if it isn't supported.
    pub fn named(byte: u8) -> Option<Command>
        ensures { result ≡ named_command byte }
    {
        match byte {
            0x01 => Some(Command::MakeCredential),
            0x02 => Some(Command::GetAssertion),
            0x04 => Some(Command::GetInfo),
            0x07 => Some(Command::Reset),
            0x08 => Some(Command::GetNextAssertion),
            0x0b => Some(Command::Selection),
            _ => None,
        }
    }
}
