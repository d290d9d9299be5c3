// Reads the `uri` of a backend.
ghost use Rattle.std.specs.Prelude.{◌≡◌, ◌==◌, ◌≤◌, ◌⊎◌, [], ◌∷◌, length, true, IfOk, OnOk, MatchOption, None, Some};
ghost use Rattle.std.specs.List.{list_all, list_any};
ghost use Rattle.std.specs.Option.{option_map};
ghost use Rattle.json_subset.specs.Numbers.{value_from};
ghost use Rattle.vtl_texts.specs.Places.{cut};
ghost use Rattle.gw_base.specs.Names.{is_digit};
ghost use Rattle.api_mappings.specs.Uris as says;

use crate::names::is_path_name;
use crate::texts::{before_last, behind, copy, split_once};
use api_parts::{Host, Piece, Uri};
use gw_base::{Memory, Seq, Text, is_name};
use std::alloc::Global;

// What braces stand for, behind a literal.
#[tactic(auto, unfolding(crate::specs::Uris::braced))]
fn read_braces(alloc: Global, front: &str, inside: &str) -> Result<Option<(Piece, Piece)>, Memory>
    ensures { IfOk result (λ o. option_map (λ p. p.0 ∷ p.1 ∷ []) o ≡ says.braced front.now inside.now) }
{
    if let Some(before) = before_last(front, '$') {
        if let Some(name) = behind(inside, "stageVariables.") {
            if is_name(name) {
                let front = copy(alloc, before)?;
                let name = copy(alloc, name)?;
                return Ok(Some((Piece::Literal(front), Piece::Variable(name))));
            }
            return Ok(None);
        }
    }
    if is_path_name(inside) {
        let front = copy(alloc, front)?;
        let name = copy(alloc, inside)?;
        return Ok(Some((Piece::Literal(front), Piece::Placeholder(name))));
    }
    Ok(None)
}

// The pieces of a text.
#[tactic(auto, unfolding(crate::specs::Uris::pieces_of))]
fn pieces(alloc: Global, text: &str) -> Result<Option<Vec<Piece>>, Memory>
    ensures { IfOk result (λ o. option_map (λ v. v.items) o ≡ says.pieces_of text.now) }
{
    let mut pieces = Vec::new(alloc);
    let mut rest = text;
    while let Some((front, behind)) = split_once(rest, "{") {
        let Some((inside, more)) = split_once(behind, "}") else {
            return Ok(None);
        };
        let Some((literal, named)) = read_braces(alloc, front, inside)? else {
            return Ok(None);
        };
        pieces.push(literal)?;
        pieces.push(named)?;
        rest = more;
    }
    let last = copy(alloc, rest)?;
    pieces.push(Piece::Literal(last))?;
    Ok(Some(pieces))
}

fn are_digits(text: &[u8]) -> bool
    ensures { result ≡ list_all is_digit text.now }
{
    text.iter().all(|b| b.is_ascii_digit())
}

fn is_port_piece(piece: &Piece) -> bool
    ensures { result ≡ says.is_port_piece piece.now }
{
    match piece {
        Piece::Literal(text) => are_digits(text.as_str().as_bytes()),
        Piece::Variable(_) => true,
        Piece::Placeholder(_) => false,
    }
}

fn are_port_pieces(pieces: &[Piece]) -> bool
    ensures { result ≡ list_all says.is_port_piece pieces.now }
{
    pieces.iter().all(|piece| is_port_piece(piece))
}

fn literal(piece: &Piece) -> &str
    ensures { result.now ≡ says.literal_of piece.now }
{
    match piece {
        Piece::Literal(text) => text.as_str(),
        Piece::Variable(_) | Piece::Placeholder(_) => "",
    }
}

// What stands in the literals.
fn literals(alloc: Global, pieces: &[Piece]) -> Result<Text, Memory>
    ensures { IfOk result (λ t. t ≡ says.literals pieces.now) }
{
    let mut text = String::new(alloc);
    for piece in pieces {
        text.push_str(literal(piece))?;
    }
    Ok(Text::of(text))
}

// The number that digits spell, where it is below 2^32.
fn number(digits: &str) -> Option<u32>
    requires { list_all is_digit digits.now ≡ true }
    ensures { MatchOption result ((digits.now ≡ []) ⊎ (4294967296 ≤ value_from 0 digits.now)) (λ n. n ≡ value_from 0 digits.now) }
{
    match digits.parse::<u32>() {
        Ok(n) => Some(n),
        Err(_) => None,
    }
}

// Whether digits are a port, and whether they are zeros.
#[tactic(auto, unfolding(crate::specs::Uris::is_port))]
fn port_or_zeros(digits: &str) -> (bool, bool)
    requires { list_all is_digit digits.now ≡ true }
    ensures port { result.0 ≡ says.is_port digits.now }
    ensures zeros { result.1 ≡ (value_from 0 digits.now == 0) }
{
    match number(digits) {
        Some(n) => (digits.len() <= 5 && 1 <= n && n <= 65535, n == 0),
        None => (false, digits.is_empty()),
    }
}

fn is_variable(name: &str, piece: &Piece) -> bool
    ensures { result ≡ says.is_variable name.now piece.now }
{
    match piece {
        Piece::Variable(other) => other.as_str() == name,
        Piece::Literal(_) | Piece::Placeholder(_) => false,
    }
}

// How often the stage variable stands in the pieces.
fn times(name: &str, pieces: &[Piece]) -> usize
    ensures { result ≡ says.times name.now pieces.now }
{
    let mut count = 0;
    for piece in pieces {
        if is_variable(name, piece) {
            count += 1;
        }
    }
    count
}

fn has_room_for(count: usize, all: &[Piece], piece: &Piece) -> bool
    ensures { result ≡ says.has_room_for count all.now piece.now }
{
    match piece {
        Piece::Variable(name) => count <= 5 && times(name.as_str(), all) <= 5 - count,
        Piece::Literal(_) | Piece::Placeholder(_) => false,
    }
}

// Whether a digit has room wherever some stage variable stands.
fn has_room(count: usize, pieces: &[Piece]) -> bool
    ensures { result ≡ list_any (says.has_room_for count pieces.now) pieces.now }
{
    for piece in pieces {
        if has_room_for(count, pieces, piece) {
            return true;
        }
    }
    false
}

// Whether some digits in the place of stage variables make a port.
#[tactic(auto, unfolding(crate::specs::Uris::can_be_port), using(crate::proofs::Braces::literal_digits))]
fn can_be_port(alloc: Global, pieces: &[Piece]) -> Result<bool, Memory>
    ensures { IfOk result (λ b. b ≡ says.can_be_port pieces.now) }
{
    if !are_port_pieces(pieces) {
        return Ok(false);
    }
    let digits = literals(alloc, pieces)?;
    let (port, zeros) = port_or_zeros(digits.as_str());
    if port {
        return Ok(true);
    }
    if !zeros {
        return Ok(false);
    }
    Ok(has_room(digits.len(), pieces))
}

fn is_path_byte(b: u8) -> bool
    ensures { result ≡ says.is_path_byte b }
{
    33 <= b && b <= 126 && !(b == b'?' || b == b'#' || b == b'{' || b == b'}')
}

fn are_path_bytes(text: &[u8]) -> bool
    ensures { result ≡ list_all says.is_path_byte text.now }
{
    text.iter().all(|b| is_path_byte(*b))
}

fn is_path_piece(piece: &Piece) -> bool
    ensures { result ≡ says.is_path_piece piece.now }
{
    match piece {
        Piece::Literal(text) => are_path_bytes(text.as_str().as_bytes()),
        Piece::Variable(_) | Piece::Placeholder(_) => true,
    }
}

fn are_path_pieces(pieces: &[Piece]) -> bool
    ensures { result ≡ list_all says.is_path_piece pieces.now }
{
    pieces.iter().all(|piece| is_path_piece(piece))
}

fn is_open(piece: &Piece) -> bool
    ensures { result ≡ says.is_open piece.now }
{
    match piece {
        Piece::Literal(_) => false,
        Piece::Variable(_) | Piece::Placeholder(_) => true,
    }
}

fn are_open(pieces: &[Piece]) -> bool
    ensures { result ≡ list_any says.is_open pieces.now }
{
    pieces.iter().any(|piece| is_open(piece))
}

// The host, and what stands behind `http://HOST:`.
#[tactic(auto, unfolding(crate::specs::Uris::behind_host))]
fn behind_host(text: &str) -> Option<(Host, &str)>
    ensures { option_map (λ h. (h.0, h.1.now)) result ≡ says.behind_host text.now }
{
    if let Some(rest) = behind(text, "http://127.0.0.1:") {
        return Some((Host::Loopback, rest));
    }
    match behind(text, "http://localhost:") {
        Some(rest) => Some((Host::Localhost, rest)),
        None => None,
    }
}

// The pieces of a port and of a path.
fn both_pieces(alloc: Global, host: Host, port: &str, path: &str) -> Result<Option<Uri>, Memory>
    ensures { IfOk result (λ o. o ≡ says.both_pieces host (says.pieces_of port.now) (says.pieces_of path.now)) }
{
    let Some(port) = pieces(alloc, port)? else {
        return Ok(None);
    };
    let Some(path) = pieces(alloc, path)? else {
        return Ok(None);
    };
    Ok(Some(Uri {
        host,
        port: Seq::of(port),
        path: Seq::of(path),
    }))
}

// The pieces of a text, whatever their values make of it.
#[tactic(auto, unfolding(crate::specs::Uris::uri_pieces))]
fn read_pieces(alloc: Global, text: &str) -> Result<Option<Uri>, Memory>
    ensures { IfOk result (λ o. o ≡ says.uri_pieces text.now) }
{
    let Some((host, rest)) = behind_host(text) else {
        return Ok(None);
    };
    match split_once(rest, "/") {
        Some((port, path)) => both_pieces(alloc, host, port, path),
        None => Ok(None),
    }
}

/// The pieces of a `uri`, and `None` where it has none, or no values in the place of its stage variables and placeholders
/// make it `http://HOST:PORT/PATH`: the host is `127.0.0.1` or `localhost`, the port a number from 1 to 65535 of at most 5
/// digits, and the path is of bytes 33 to 126 but for `?`, `#`, `{` and `}`.
#[tactic(auto, unfolding(crate::specs::Uris::uri_of))]
pub fn read_uri(alloc: Global, text: &str) -> Result<Option<Uri>, Memory>
    ensures { IfOk result (λ o. o ≡ says.uri_of text.now) }
{
    match read_pieces(alloc, text)? {
        Some(uri) => {
            if can_be_port(alloc, uri.port.as_slice())? && are_path_pieces(uri.path.as_slice()) {
                Ok(Some(uri))
            } else {
                Ok(None)
            }
        }
        None => Ok(None),
    }
}

/// Whether a text is a `uri` with neither stage variables nor placeholders.
pub fn is_plain(alloc: Global, text: &str) -> Result<bool, Memory>
    ensures { IfOk result (λ b. b ≡ says.is_plain_uri text.now) }
{
    match read_uri(alloc, text)? {
        Some(uri) => Ok(!are_open(uri.port.as_slice()) && !are_open(uri.path.as_slice())),
        None => Ok(false),
    }
}
