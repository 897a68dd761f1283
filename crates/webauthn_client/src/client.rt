//! A call of `navigator.credentials`: parses the options, encodes the CTAP2 request, and converts the authenticator's
//! response to the page's response or error.

ghost use Rattle.std.specs.Prelude.{◌≡◌, ◌≢◌, ◌∷◌, ℕ, List, OnOk, IfOk, IsTrue};
ghost use Rattle.ctap_cbor.specs.Tree.{Tree};
ghost use Rattle.ctap_cbor.specs.Grammar.{IsCanonical};
ghost use Rattle.webauthn_client.specs.declared.options.Verification.TheVariants.{Verified};
ghost use Rattle.webauthn_client.specs.declared.rejection.DomError.TheVariants.{InvalidState, NotAllowed};

use crate::checking::is_json;
use crate::client_data::{Ceremony, ClientData};
use crate::json::member;
use crate::message::Message;
use crate::number::unsigned_long;
use crate::options::{Abilities, is_conditional, public_key_options};
use crate::rejection::{DomError, Rejection, not_allowed, type_error};
use crate::relying_party::{Origin, parse_origin};
use crate::response::{Response, authentication_json, invalid_response, registration_json};
use crate::{registration, sign_in};
use ctap_cbor::check;

/// A pending call of `navigator.credentials`. It borrows the page's options and origin, and has no other state.
#[derive(Clone, Copy)]
pub struct Client<'a> {
    ceremony: Ceremony,
    options: &'a [u8],
    origin: Origin<'a>,
    suffix: &'a [u8],
    abilities: Abilities,
    is_conditional: bool,
    /// The timeout in milliseconds: that of the options, or `DEFAULT_TIMEOUT_MS` if the options have none or the
    /// mediation is conditional.
    pub timeout: u32,
}

/// The browser's default timeout, in milliseconds.
const DEFAULT_TIMEOUT_MS: u32 = 600_000;

/// Returns the error that the page gets for a CTAP status code.
fn status_rejection(status: u8) -> Rejection
    ensures excluded { status ≡ 25 → result.error ≡ InvalidState }
    ensures others { status ≢ 25 → result.error ≡ NotAllowed }
{
    if status == 0x19 {
        return Rejection {
            error: DomError::InvalidState,
            member: "",
            reason: "the key holds a credential of excludeCredentials",
        };
    }
    not_allowed("the key refused")
}

impl<'a> Client<'a> {
    /// Begins a call with JSON options from a page with this origin. Fails if the options aren't valid JSON, an option
    /// has the wrong type, or the mediation or the origin is invalid.
    pub fn begin(
        ceremony: Ceremony,
        options: &'a [u8],
        mediation: &[u8],
        origin: &'a [u8],
        suffix: &'a [u8],
        abilities: Abilities,
    ) -> Result<Client<'a>, Rejection> {
        let is_conditional = is_conditional(mediation)?;
        if !is_json(options) {
            return Err(type_error("", "the options are not valid JSON"));
        }
        let trimmed = options.trim_ascii();
        let options = public_key_options(trimmed)?;
        let Some(origin) = parse_origin(origin) else {
            return Err(type_error("origin", "must be an origin, such as https://example.com"));
        };
        match ceremony {
            Ceremony::Create => registration::check_types(options)?,
            Ceremony::Get => sign_in::check_types(options)?,
        }
        let timeout = match member(options, "timeout") {
            Some(timeout) if !is_conditional => unsigned_long(timeout),
            _ => DEFAULT_TIMEOUT_MS,
        };
        Ok(Client {
            ceremony,
            options,
            origin,
            suffix,
            abilities,
            is_conditional,
            timeout,
        })
    }

    /// Appends the CTAP2 request to a message. Fails if browsers would reject the values of the options.
    pub fn request(&self, message: &mut Message) -> Result<(), Rejection> {
        match self.ceremony {
            Ceremony::Create => registration::encode_request(
                self.options,
                &self.origin,
                self.suffix,
                self.abilities,
                message,
            )?,
            Ceremony::Get => sign_in::encode_request(
                self.options,
                &self.origin,
                self.suffix,
                self.abilities,
                message,
            )?,
        }
        if self.is_conditional && self.ceremony == Ceremony::Create {
            return Err(not_allowed("cannot create a credential with conditional mediation"));
        }
        if self.timeout == 0 {
            return Err(not_allowed("the request's timeout is 0"));
        }
        Ok(())
    }

    /// Returns whether the user is verified, so that the UV flag of the response must be set.
    pub fn is_verified(&self) -> Result<bool, Rejection>
        ensures { IfOk result (λ v. IsTrue v → self.now.abilities.verification ≡ Verified) }
    {
        match self.ceremony {
            Ceremony::Create => registration::verifies_user(self.options, self.abilities),
            Ceremony::Get => sign_in::verifies_user(self.options, self.abilities),
        }
    }

    /// Returns the client data of the call.
    pub fn client_data(&self) -> Result<ClientData, Rejection> {
        match self.ceremony {
            Ceremony::Create => registration::create_client_data(self.options, &self.origin),
            Ceremony::Get => sign_in::create_client_data(self.options, &self.origin),
        }
    }

    /// Appends the page's response, converted from the map in the authenticator's response. The map must be one item in
    /// canonical CBOR.
    fn response(&self, map: &[u8], out: &mut Response) -> Result<(), Rejection>
        ensures { OnOk result ((t : Tree) × IsCanonical t map.now) }
    {
        if check(map).result.is_err() {
            return Err(invalid_response());
        }
        let data = self.client_data()?;
        let extensions = member(self.options, "extensions");
        match self.ceremony {
            Ceremony::Create => {
                let is_discoverable = registration::is_discoverable(self.options, self.abilities)?;
                registration_json(map, &data, extensions, is_discoverable, self.abilities, out)
            }
            Ceremony::Get => authentication_json(map, &data, extensions, self.abilities, out),
        }
    }

    /// Appends the page's response as JSON, converted from the authenticator's response. If the authenticator returned
    /// several responses, `answer` is the one for the selected account.
    pub fn answer(&self, answer: &[u8], out: &mut Response) -> Result<(), Rejection>
        ensures { OnOk result ((map : List ℕ) × (answer.now ≡ 0 ∷ map) × ((t : Tree) × IsCanonical t map)) }
    {
        match answer.split_first() {
            Some((0, map)) => self.response(map, out),
            Some((status, _)) => Err(status_rejection(*status)),
            None => Err(not_allowed("the key's response is empty")),
        }
    }
}
