// The site whose page made a browser send a request.
ghost use Rattle.std.specs.Prelude.{◌≡◌};
ghost use Rattle.admin_routes.specs.Origins.{has_foreign_origin as has_foreign_origin_of, is_foreign as is_foreign_of, is_at as is_at_of, is_loopback as is_loopback_of, is_local as is_local_of, is_port as is_port_of};
ghost use Rattle.std.specs.List.{list_all};
ghost use Rattle.gw_base.specs.Names.{is_digit};

use gw_base::{Text, same_name};

fn are_digits(text: &[u8]) -> bool
    ensures { result ≡ list_all is_digit text.now }
{
    text.iter().all(|b| b.is_ascii_digit())
}

// Whether it is no port, or `:` and its digits.
#[tactic(auto, unfolding(crate::specs::Origins::is_port))]
fn is_port(text: &[u8]) -> bool
    ensures { result ≡ is_port_of text.now }
{
    match text {
        [] => true,
        [first, digits @ ..] => *first == b':' && !digits.is_empty() && are_digits(digits),
    }
}

// Whether it is this host, at any port.
#[tactic(auto, unfolding(crate::specs::Origins::is_at))]
fn is_at(text: &[u8], host: &[u8]) -> bool
    ensures { result ≡ is_at_of text.now host.now }
{
    text.starts_with(host) && is_port(&text[host.len()..])
}

// Whether it is a name of the loopback, at any port.
#[tactic(auto, unfolding(crate::specs::Origins::is_loopback))]
fn is_loopback(text: &[u8]) -> bool
    ensures { result ≡ is_loopback_of text.now }
{
    is_at(text, b"127.0.0.1") || is_at(text, b"localhost") || is_at(text, b"[::1]")
}

// Whether an origin is a site of this machine.
#[tactic(auto, unfolding(crate::specs::Origins::is_local))]
fn is_local(origin: &[u8]) -> bool
    ensures { result ≡ is_local_of origin.now }
{
    (origin.starts_with(b"http://") && is_loopback(&origin[7..]))
        || (origin.starts_with(b"https://") && is_loopback(&origin[8..]))
}

#[tactic(auto, unfolding(crate::specs::Origins::is_foreign))]
fn is_foreign(header: &(Text, Text)) -> bool
    ensures { result ≡ is_foreign_of header.now }
{
    same_name(header.0.as_str(), "origin") && !is_local(header.1.as_str().as_bytes())
}

/// Whether a page of another site, or of none, made a browser send these header fields.
pub(crate) fn has_foreign_origin(headers: &[(Text, Text)]) -> bool
    ensures { result ≡ has_foreign_origin_of headers.now }
{
    headers.iter().any(is_foreign)
}
