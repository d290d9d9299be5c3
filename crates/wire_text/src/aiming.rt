// Where a request goes, by the values of its uri.
ghost use Rattle.std.specs.Prelude.{◌≡◌, ◌≤◌, ◌⊎◌, [], true, IfOk, MatchOption};
ghost use Rattle.std.specs.List.{list_all};
ghost use Rattle.std.specs.Option.{option_map};
ghost use Rattle.api_mappings.specs.Uris.{is_path_byte as is_path_byte_of};
ghost use Rattle.gw_base.specs.Names.{is_digit};
ghost use Rattle.json_subset.specs.Numbers.{value_from};
ghost use Rattle.wire_text.specs.Destinations.{destination_by, destination_of, port_number as port_number_of};

use crate::pieces::pieces_text;
use crate::places::{Destination, PathValue};
use api_parts::{Host, Uri};
use gw_base::{Memory, Text};
use std::alloc::Global;

fn are_digits(text: &[u8]) -> bool
    ensures { result ≡ list_all is_digit text.now }
{
    text.iter().all(|b| b.is_ascii_digit())
}

// The number that digits spell, where it is below 2^16.
fn number(digits: &str) -> Option<u16>
    requires { list_all is_digit digits.now ≡ true }
    ensures { MatchOption result ((digits.now ≡ []) ⊎ (65536 ≤ value_from 0 digits.now)) (λ n. n ≡ value_from 0 digits.now) }
{
    match digits.parse::<u16>() {
        Ok(n) => Some(n),
        Err(_) => None,
    }
}

// The number of a port.
#[tactic(auto, unfolding(crate::specs::Destinations::port_number, api_mappings::specs::Uris::is_port))]
fn port_number(text: &str) -> Option<u16>
    ensures { result ≡ port_number_of text.now }
{
    if !are_digits(text.as_bytes()) {
        return None;
    }
    match number(text) {
        Some(n) if n > 0 && text.len() <= 5 => Some(n),
        Some(_) | None => None,
    }
}

fn is_path_byte(b: u8) -> bool
    ensures { result ≡ is_path_byte_of b }
{
    33 <= b && b <= 126 && !(b == b'?' || b == b'#' || b == b'{' || b == b'}')
}

fn are_path_bytes(text: &[u8]) -> bool
    ensures { result ≡ list_all is_path_byte_of text.now }
{
    text.iter().all(|b| is_path_byte(*b))
}

// The destination of these parts.
fn aim(alloc: Global, host: Host, port: Text, path: Text) -> Result<Option<Destination>, Memory>
    ensures { IfOk result (λ d. d ≡ destination_by host port (port_number_of port) path) }
{
    let Some(number) = port_number(port.as_str()) else {
        return Ok(None);
    };
    if !are_path_bytes(path.as_str().as_bytes()) {
        return Ok(None);
    }
    let mut rooted = String::from_str(alloc, "/")?;
    rooted.push_str(path.as_str())?;
    Ok(Some(Destination {
        host: Text::of(String::from_str(alloc, host.as_str())?),
        port: number,
        port_text: port,
        path: Text::of(rooted),
    }))
}

/// Where a request goes: the host of the uri, its port and its path, with the values of its stage variables as they are, and
/// in the place of each placeholder the first value of its name, percent-coded. `None` where a piece has no value, or where
/// PORT is then no number from 1 to 65,535 of at most 5 digits, or PATH has a byte outside 33 to 126 or one of `?#{}`.
#[tactic(auto, unfolding(crate::specs::Destinations::destination_of))]
pub fn destination(
    alloc: Global,
    uri: &Uri,
    variables: &[(Text, Text)],
    values: &[PathValue],
) -> Result<Option<Destination>, Memory>
    ensures { IfOk result (λ d. d ≡ destination_of uri.now variables.now values.now) }
{
    let Some(port) = pieces_text(alloc, variables, values, uri.port.as_slice())? else {
        return Ok(None);
    };
    let Some(path) = pieces_text(alloc, variables, values, uri.path.as_slice())? else {
        return Ok(None);
    };
    aim(alloc, uri.host, port, path)
}
