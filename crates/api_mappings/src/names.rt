// What names may be.
ghost use Rattle.std.specs.Prelude.{◌≡◌};
ghost use Rattle.std.specs.List.{list_all};
ghost use Rattle.gw_base.specs.Names.{is_letter as is_letter_of, is_name_byte as is_name_byte_of};
ghost use Rattle.api_mappings.specs.Names as says;

use gw_base::same_name;

fn is_letter(b: u8) -> bool
    ensures { result ≡ is_letter_of b }
{
    b.is_ascii_alphabetic()
}

#[tactic(auto, unfolding(gw_base::specs::Names::is_name_byte))]
fn is_name_byte(b: u8) -> bool
    ensures { result ≡ is_name_byte_of b }
{
    is_letter(b) || b.is_ascii_digit() || b == b'_' || b == b'-'
}

fn are_name_bytes(text: &[u8]) -> bool
    ensures { result ≡ list_all is_name_byte_of text.now }
{
    text.iter().all(|b| is_name_byte(*b))
}

/// Whether a text is the name of a parameter of a path: 1 to 64 of ASCII letters, digits, `_` and `-`.
#[tactic(auto, unfolding(crate::specs::Names::is_path_name))]
pub(crate) fn is_path_name(text: &str) -> bool
    ensures { result ≡ says.is_path_name text.now }
{
    !text.is_empty() && text.len() <= 64 && are_name_bytes(text.as_bytes())
}

/// Whether a header is one that the gateway alone writes.
#[tactic(auto, unfolding(crate::specs::Names::is_own_header))]
pub(crate) fn is_own_header(name: &str) -> bool
    ensures { result ≡ says.is_own_header name.now }
{
    same_name(name, "host")
        || same_name(name, "connection")
        || same_name(name, "content-length")
        || same_name(name, "transfer-encoding")
        || same_name(name, "x-gateway-cause")
}

/// Whether a text is identifiers parted by dots.
pub(crate) fn is_dotted(text: &str) -> bool
    ensures { result ≡ says.is_dotted text.now }
{
    let mut begins = true;
    let bytes = text.as_bytes();
    for b in bytes {
        if begins {
            if !is_letter(*b) {
                return false;
            }
            begins = false;
        } else if *b == b'.' {
            begins = true;
        } else if !is_name_byte(*b) {
            return false;
        }
    }
    !begins
}
