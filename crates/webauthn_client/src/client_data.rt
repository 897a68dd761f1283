//! The bytes of clientDataJSON (WebAuthn Level 3, section 5.8.1.1, "Serialization").

ghost use Rattle.std.specs.Prelude.{◌≡◌, ◌++◌, OnOk, IfOk};
ghost use Rattle.webauthn_client.specs.ClientData.{client_data};

use crate::base64url::encode;
use crate::rejection::{Rejection, too_long};
use crate::relying_party::Origin;
use arrayvec::ArrayVec;

/// The call of the page: it creates a credential, or gets an assertion.
#[derive(Clone, Copy, Debug, PartialEq, Eq)]
pub enum Ceremony {
    Create,
    Get,
}

/// Client data in JSON.
pub type ClientData = ArrayVec<u8, 4096>;

/// Appends bytes.
fn push(out: &mut ClientData, bytes: &[u8]) -> Result<(), Rejection>
    ensures { OnOk result (out.new.items ≡ out.old.items ++ bytes.now) }
{
    if out.try_extend_from_slice(bytes).is_err() {
        return Err(too_long());
    }
    Ok(())
}

/// Returns the client data for a ceremony, with this challenge and this origin. Nothing else in the client data comes
/// from the page.
pub fn write_client_data(
    ceremony: Ceremony,
    challenge: &[u8],
    origin: &Origin,
) -> Result<ClientData, Rejection>
    ensures { IfOk result (λ d. d.items ≡ client_data ceremony challenge.now origin.now.text.now) }
{
    let mut out = ClientData::new();
    match ceremony {
        Ceremony::Create => push(&mut out, b"{\"type\":\"webauthn.create\",\"challenge\":\"")?,
        Ceremony::Get => push(&mut out, b"{\"type\":\"webauthn.get\",\"challenge\":\"")?,
    }
    if encode(challenge, &mut out).is_err() {
        return Err(too_long());
    }
    push(&mut out, b"\",\"origin\":\"")?;
    push(&mut out, origin.text)?;
    push(&mut out, b"\",\"crossOrigin\":false}")?;
    Ok(out)
}
