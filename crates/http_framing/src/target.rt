// Whether bytes end inside a request's target, of which UTF-8 is tested only once its end stands.
ghost use Rattle.std.specs.Prelude.{◌≡◌, ◌↔◌, false, IsTrue};
ghost use Rattle.std.specs.List.{list_all};
ghost use Rattle.httparse.specs.Grammar.{EndsInTarget, is_uri_byte};
ghost use Rattle.http_framing.specs.Targets.{after_blank, in_method};

use httparse::{is_header_name_token, is_uri_token};

/// The bytes after the empty lines at the front.
#[tactic(auto, unfolding(crate::specs::Targets::after_blank))]
pub fn skip_blank(buf: &[u8]) -> &[u8]
    ensures { result.now ≡ after_blank buf.now }
{
    let mut left = buf;
    loop {
        match left {
            [10, rest @ ..] => left = rest,
            [13, 10, rest @ ..] => left = rest,
            _ => return left,
        }
    }
}

fn is_target(bytes: &[u8]) -> bool
    ensures { result ≡ list_all is_uri_byte bytes.now }
{
    bytes.iter().all(|&b| is_uri_token(b))
}

// Whether the bytes are a method, a space and the beginning of a target.
#[tactic(auto, unfolding(crate::specs::Targets::in_method))]
fn ends_method(buf: &[u8]) -> bool
    ensures { result ≡ in_method false buf.now }
{
    let mut some = false;
    let mut left = buf;
    while let [b, rest @ ..] = left {
        if !is_header_name_token(*b) {
            return some && *b == b' ' && is_target(rest);
        }
        some = true;
        left = rest;
    }
    false
}

/// Whether the bytes end inside a target.
pub fn ends_in_target(buf: &[u8]) -> bool
    ensures { IsTrue result ↔ EndsInTarget buf.now }
{
    ends_method(skip_blank(buf))
}
