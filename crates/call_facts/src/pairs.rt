// Names and values: header fields, parameters, variables.
ghost use Rattle.std.specs.Prelude.{◌≡◌};
ghost use Rattle.std.specs.Option.{option_map};
ghost use Rattle.call_facts.specs.Pairs.{first_value as first_of, last_value as last_of, header_value as header_of};

use gw_base::{Text, same_name};

/// The value of the first pair of this name.
pub fn first_value<'a>(pairs: &'a [(Text, Text)], name: &str) -> Option<&'a Text>
    ensures { option_map (λ v. v.now) result ≡ first_of pairs.now name.now }
{
    for pair in pairs {
        if pair.0.as_str() == name {
            return Some(&pair.1);
        }
    }
    None
}

/// The value of the last pair of this name.
pub fn last_value<'a>(pairs: &'a [(Text, Text)], name: &str) -> Option<&'a Text>
    ensures { option_map (λ v. v.now) result ≡ last_of pairs.now name.now }
{
    let mut found = None;
    for pair in pairs {
        if pair.0.as_str() == name {
            found = Some(&pair.1);
        }
    }
    found
}

/// The value of the first header field of this name, without regard to ASCII case.
pub fn header_value<'a>(headers: &'a [(Text, Text)], name: &str) -> Option<&'a Text>
    ensures { option_map (λ v. v.now) result ≡ header_of headers.now name.now }
{
    for header in headers {
        if same_name(header.0.as_str(), name) {
            return Some(&header.1);
        }
    }
    None
}
