// Reads a path as its parts.
ghost use Rattle.std.specs.Prelude.{◌≡◌, ◌==◌, ◌<◌, Some, None, IfOk, MatchOption};
ghost use Rattle.std.specs.List.{list_all, slice_split};
ghost use Rattle.std.specs.Option.{option_map};
ghost use Rattle.resource_tree.specs.Spelling.{is_literal as is_literal_of, is_literal_byte as is_literal_byte_of, is_name as is_name_of, is_name_byte as is_name_byte_of};
ghost use Rattle.resource_tree.specs.Reading.{before_last as before_last_of, behind_first as behind_first_of, part_of, parts_of, each_part, behind_brace};

use crate::part::Part;
use gw_base::{Memory, Text};
use std::alloc::Global;

/// The most bytes of a parameter's name.
const NAME_LIMIT: usize = 64;

/// The parts of a path, wherever a `{name+}` stands among them, or `None` where it is no path.
#[tactic(auto, unfolding(crate::specs::Reading::parts_of))]
pub fn read_parts(alloc: Global, path: &str) -> Result<Option<Vec<Part>>, Memory>
    ensures { IfOk result (λ parts. option_map (λ v. v.items) parts ≡ parts_of path.now) }
{
    let Some(rest) = behind_first(path, '/') else {
        return Ok(None);
    };
    if rest.is_empty() {
        return Ok(Some(Vec::new(alloc)));
    }
    read_each(alloc, rest)
}

/// The parts that stand behind the first `/`, where something does.
fn read_each(alloc: Global, rest: &str) -> Result<Option<Vec<Part>>, Memory>
    ensures { IfOk result (λ parts. option_map (λ v. v.items) parts ≡ each_part (slice_split (λ c. c == 47) rest.now)) }
{
    let mut parts = Vec::new(alloc);
    for text in rest.split('/') {
        match read_part(alloc, text)? {
            Some(part) => parts.push(part)?,
            None => return Ok(None),
        }
    }
    Ok(Some(parts))
}

/// The part that is written so, where one is.
#[tactic(auto, unfolding(crate::specs::Reading::part_of))]
fn read_part(alloc: Global, text: &str) -> Result<Option<Part>, Memory>
    ensures { IfOk result (λ part. part ≡ part_of text.now) }
{
    match behind_first(text, '{') {
        Some(rest) => read_parameter(alloc, rest),
        None if is_literal(text) => Ok(Some(Part::Literal(copied(alloc, text)?))),
        None => Ok(None),
    }
}

/// The parameter that is written so behind its first brace, where one is.
fn read_parameter(alloc: Global, rest: &str) -> Result<Option<Part>, Memory>
    ensures { IfOk result (λ part. part ≡ behind_brace (before_last_of 125 rest.now)) }
{
    let Some(inner) = before_last(rest, '}') else {
        return Ok(None);
    };
    match before_last(inner, '+') {
        Some(name) if is_name(name) => Ok(Some(Part::Greedy(copied(alloc, name)?))),
        None if is_name(inner) => Ok(Some(Part::Parameter(copied(alloc, inner)?))),
        _ => Ok(None),
    }
}

/// What stands behind the character, where the text begins with it.
fn behind_first(text: &str, c: char) -> Option<&str>
    requires { c < 128 }
    ensures { MatchOption result (behind_first_of c text.now ≡ None) (λ rest. behind_first_of c text.now ≡ Some rest.now) }
{
    text.strip_prefix(c)
}

/// What stands before the character, where the text ends with it.
fn before_last(text: &str, c: char) -> Option<&str>
    requires { c < 128 }
    ensures { MatchOption result (before_last_of c text.now ≡ None) (λ front. before_last_of c text.now ≡ Some front.now) }
{
    text.strip_suffix(c)
}

fn copied(alloc: Global, text: &str) -> Result<Text, Memory>
    ensures { IfOk result (λ copy. copy ≡ text.now) }
{
    Ok(Text::of(String::from_str(alloc, text)?))
}

fn is_literal(text: &str) -> bool
    ensures { result ≡ is_literal_of text.now }
{
    !text.is_empty() && has_literal_bytes(text.as_bytes())
}

fn has_literal_bytes(bytes: &[u8]) -> bool
    ensures { result ≡ list_all is_literal_byte_of bytes.now }
{
    bytes.iter().all(|byte| is_literal_byte(*byte))
}

fn is_literal_byte(byte: u8) -> bool
    ensures { result ≡ is_literal_byte_of byte }
{
    !matches!(byte, b'/' | b'{' | b'}')
}

fn is_name(text: &str) -> bool
    ensures { result ≡ is_name_of text.now }
{
    !text.is_empty() && text.len() <= NAME_LIMIT && has_name_bytes(text.as_bytes())
}

fn has_name_bytes(bytes: &[u8]) -> bool
    ensures { result ≡ list_all is_name_byte_of bytes.now }
{
    bytes.iter().all(|byte| is_name_byte(*byte))
}

fn is_name_byte(byte: u8) -> bool
    ensures { result ≡ is_name_byte_of byte }
{
    byte.is_ascii_alphanumeric() || matches!(byte, b'_' | b'-')
}
