// What names may be, and when two are the same.
ghost use Rattle.std.specs.Prelude.{◌≡◌, IfOk};
ghost use Rattle.std.specs.List.{list_all};
ghost use Rattle.std.specs.String.{string_bytes};
ghost use Rattle.gw_base.specs.Names.{is_name as is_name_of, is_name_byte as is_name_byte_of, begins_name as begins_name_of, is_token as is_token_of, is_token_byte as is_token_byte_of, same_name as same_name_of, lower as lower_of};

use crate::outside::Memory;
use std::alloc::Global;

/// The most bytes of a name.
const NAME_LIMIT: usize = 64;

#[tactic(auto, unfolding(crate::specs::Names::is_name_byte))]
fn is_name_byte(b: u8) -> bool
    ensures { result ≡ is_name_byte_of b }
{
    b.is_ascii_alphabetic() || b.is_ascii_digit() || b == b'_' || b == b'-'
}

fn are_name_bytes(text: &[u8]) -> bool
    ensures { result ≡ list_all is_name_byte_of text.now }
{
    text.iter().all(|b| is_name_byte(*b))
}

fn begins_name(text: &[u8]) -> bool
    ensures { result ≡ begins_name_of text.now }
{
    match text {
        [] => false,
        [first, _rest @ ..] => first.is_ascii_alphabetic() || first.is_ascii_digit(),
    }
}

/// Whether a text is a name, as those of APIs, stages, stage variables, models, validators and authorizers: 1 to 64 of ASCII
/// letters, digits, `_` and `-`, of which the first is a letter or a digit.
#[tactic(auto, unfolding(crate::specs::Names::is_name))]
pub fn is_name(text: &str) -> bool
    ensures { result ≡ is_name_of text.now }
{
    begins_name(text.as_bytes()) && text.len() <= NAME_LIMIT && are_name_bytes(text.as_bytes())
}

#[tactic(auto, unfolding(crate::specs::Names::is_token_byte))]
fn is_token_byte(b: u8) -> bool
    ensures { result ≡ is_token_byte_of b }
{
    b.is_ascii_alphabetic()
        || b.is_ascii_digit()
        || b == b'!'
        || (b'#' <= b && b <= b'\'')
        || b == b'*'
        || b == b'+'
        || b == b'-'
        || b == b'.'
        || (b'^' <= b && b <= b'`')
        || b == b'|'
        || b == b'~'
}

fn are_token_bytes(text: &[u8]) -> bool
    ensures { result ≡ list_all is_token_byte_of text.now }
{
    text.iter().all(|b| is_token_byte(*b))
}

/// Whether a text is a token (RFC 9110, section 5.6.2), as the name of a header field is.
#[tactic(auto, unfolding(crate::specs::Names::is_token))]
pub fn is_token(text: &str) -> bool
    ensures { result ≡ is_token_of text.now }
{
    !text.is_empty() && are_token_bytes(text.as_bytes())
}

/// Whether two names of header fields are equal, without regard to ASCII case (RFC 9110, section 5.1).
#[tactic(auto, unfolding(crate::specs::Names::same_name))]
pub fn same_name(name: &str, other: &str) -> bool
    ensures { result ≡ same_name_of name.now other.now }
{
    name.eq_ignore_ascii_case(other)
}

/// A name in lower case.
pub fn lower(alloc: Global, name: &str) -> Result<String, Memory>
    ensures { IfOk result (λ made. string_bytes made ≡ lower_of name.now) }
{
    let mut made = String::from_str(alloc, name)?;
    made.make_ascii_lowercase();
    Ok(made)
}
