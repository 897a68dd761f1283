//! The origin of a page, and the RP IDs that the page may use.

ghost use Rattle.std.specs.Prelude.{◌≡◌, ◌↔◌, ◌∷◌, ◌<◌, IsTrue, IfOk, List, ℕ, length};
ghost use Rattle.webauthn_client.specs.RelyingParty.{MayUse};
ghost use Rattle.webauthn_client.specs.declared.rejection.DomError.TheVariants.{Security};

use crate::rejection::{DomError, Rejection};

/// A serialized origin: `scheme://host` or `scheme://host:port`, in lower case.
#[derive(Clone, Copy)]
pub struct Origin<'a> {
    pub text: &'a [u8],
    pub host: &'a [u8],
    pub is_secure_scheme: bool,
}

/// Returns the error for an origin, an RP ID or an extension's URL that isn't allowed.
fn security_error(member: &'static str, reason: &'static str) -> Rejection
    ensures error { result.error ≡ Security }
    ensures member { result.member.now ≡ member.now }
{
    Rejection {
        error: DomError::Security,
        member,
        reason,
    }
}

/// Returns whether a byte may occur in a host name. No such byte needs escaping in JSON.
fn is_host_char(byte: u8) -> bool {
    matches!(byte, b'a'..=b'z' | b'0'..=b'9' | b'-' | b'.' | b'_')
}

/// Returns the host at the beginning of a text, if a valid port or nothing follows it.
fn parse_host(rest: &[u8]) -> Option<&[u8]> {
    let len = rest
        .iter()
        .position(|&byte| !is_host_char(byte))
        .unwrap_or(rest.len());
    let (host, port) = rest.split_at_checked(len)?;
    let is_port = match port.split_first() {
        None => true,
        Some((colon, digits)) => {
            *colon == b':' && !digits.is_empty() && digits.iter().all(|&byte| byte.is_ascii_digit())
        }
    };
    if host.is_empty() || !is_port {
        None
    } else {
        Some(host)
    }
}

/// Parses an origin. Returns None unless it is a serialized http or https origin with a domain or an IPv4 address.
pub fn parse_origin<'a>(text: &'a [u8]) -> Option<Origin<'a>> {
    let (is_secure_scheme, rest) = match (
        text.strip_prefix(b"https://"),
        text.strip_prefix(b"http://"),
    ) {
        (Some(rest), _) => (true, rest),
        (_, Some(rest)) => (false, rest),
        _ => return None,
    };
    let host = parse_host(rest)?;
    Some(Origin {
        text,
        host,
        is_secure_scheme,
    })
}

/// Returns the label after the last dot.
fn last_label(host: &[u8]) -> &[u8] {
    for i in 0..host.len() {
        let place = host.len() - 1 - i;
        if host[place] == b'.' {
            return &host[place + 1..];
        }
    }
    host
}

/// Returns whether a host counts as an IPv4 address: its last label consists of digits, or is empty.
fn is_address(host: &[u8]) -> bool {
    last_label(host).iter().all(|&byte| byte.is_ascii_digit())
}

/// Returns whether a text is a dot followed by this suffix.
fn is_dot_and_suffix(tail: &[u8], id: &[u8]) -> bool
    ensures { IsTrue result ↔ (tail.now ≡ 46 ∷ id.now) }
{
    match tail.split_first() {
        Some((stop, domain)) => *stop == b'.' && domain == id,
        None => false,
    }
}

/// Returns whether a page at this host may use the RP ID `id`: the RP ID is the host, or a parent domain of the host
/// that is longer than the host's public suffix.
pub fn may_use(id: &[u8], host: &[u8], suffix: &[u8]) -> bool
    ensures { IsTrue result ↔ MayUse id.now host.now suffix.now }
{
    if id.len() >= host.len() || id.len() <= suffix.len() {
        return id == host;
    }
    let (_, tail) = host.split_at(host.len() - id.len() - 1);
    is_dot_and_suffix(tail, id)
}

/// Checks that the page's host is not an IP address, and that the page is a secure context: its scheme is https, or its
/// host is localhost.
fn check_context(origin: &Origin) -> Result<(), Rejection> {
    if is_address(origin.host) {
        return Err(security_error(
            "",
            "This is an invalid domain: the host is an IP address; serve the page at http://localhost",
        ));
    }
    let is_local = origin.host == b"localhost".as_slice() || origin.host.ends_with(b".localhost");
    if !origin.is_secure_scheme && !is_local {
        return Err(security_error(
            "",
            "the page is not in a secure context: browsers offer WebAuthn only on https:// and http://localhost",
        ));
    }
    Ok(())
}

/// Returns the RP ID of a call: the one in the options, or without one the page's host. Fails if the page may not use
/// it. If the caller passes no public suffix, the last label of the host is used as the suffix.
pub fn select_rp_id<'a>(
    given: Option<&'a [u8]>,
    origin: &Origin<'a>,
    suffix: &[u8],
) -> Result<&'a [u8], Rejection>
    ensures some { IfOk result (λ id. (s : List ℕ) × MayUse id.now origin.now.host.now s) }
    ensures known { 0 < length suffix.now → IfOk result (λ id. MayUse id.now origin.now.host.now suffix.now) }
{
    check_context(origin)?;
    let Some(id) = given else {
        return Ok(origin.host);
    };
    let known = if suffix.is_empty() {
        last_label(origin.host)
    } else {
        suffix
    };
    if !may_use(id, origin.host, known) {
        return Err(security_error(
            "",
            "The relying party ID is not a registrable domain suffix of, nor equal to the current domain",
        ));
    }
    Ok(id)
}

/// Checks that the value of the extension `name` is an https URL of the page's site, and that the page's scheme is
/// https.
pub fn check_site(url: &[u8], name: &'static str, origin: &Origin) -> Result<(), Rejection> {
    let path = match url.iter().position(|&byte| byte == b'/') {
        Some(_) => url,
        None => {
            return Err(Rejection {
                error: DomError::Syntax,
                member: name,
                reason: "The extension value is neither empty/null nor a valid URL.",
            });
        }
    };
    let Some(rest) = path.strip_prefix(b"https://") else {
        return Err(security_error(name, "the extension's URL isn't over https"));
    };
    let len = rest
        .iter()
        .position(|&byte| !is_host_char(byte))
        .unwrap_or(rest.len());
    let site = rest.get(..len).unwrap_or(b"");
    let is_near = may_use(site, origin.host, last_label(origin.host))
        || may_use(origin.host, site, last_label(site));
    if !origin.is_secure_scheme {
        return Err(security_error(name, "the page isn't served over https"));
    }
    if !is_near {
        return Err(security_error(name, "the extension's URL belongs to another site"));
    }
    Ok(())
}
