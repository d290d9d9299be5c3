// What a path below `$context` writes over.
ghost use Rattle.std.specs.Prelude.{◌≡◌, IfOk};
ghost use Rattle.std.specs.Option.{option_map};
ghost use Rattle.gateway_vars.specs.Values.{only};
ghost use Rattle.gateway_vars.specs.Writing.{named as named_of, bare as bare_of, request_part as request_part_of, response_part as response_part_of, part_below as part_below_of, group_of, slot_of as slot_of_path, kept_name as kept_name_of, path_at as path_at_of, kept_at as kept_at_of};

use gw_base::{Memory, Text, lower};
use std::alloc::Global;

/// Whose template writes.
#[derive(Clone, Copy)]
pub enum Side {
    /// The template of a request: `$context.requestOverride`.
    Request,
    /// The template of a response: `$context.responseOverride`.
    Response,
}

/// What is written over.
#[derive(Clone, Copy)]
pub enum Part {
    /// A header field.
    Header,
    /// A parameter of the query.
    Query,
    /// A parameter of the path.
    Path,
    /// The status.
    Status,
}

fn only_name(path: &[Text]) -> Option<&Text>
    ensures { option_map (λ x. x.now) result ≡ only path.now }
{
    match path {
        [name] => Some(name),
        _ => None,
    }
}

fn named(part: Part, rest: &[Text]) -> Option<(Part, &str)>
    ensures { option_map (λ s. (s.0, s.1.now)) result ≡ named_of part rest.now }
{
    match only_name(rest) {
        Some(name) => Some((part, name.as_str())),
        None => None,
    }
}

fn bare(part: Part, rest: &[Text]) -> Option<(Part, &str)>
    ensures { option_map (λ s. (s.0, s.1.now)) result ≡ bare_of part rest.now }
{
    if rest.is_empty() {
        Some((part, ""))
    } else {
        None
    }
}

fn request_part<'a>(name: &str, rest: &'a [Text]) -> Option<(Part, &'a str)>
    ensures { option_map (λ s. (s.0, s.1.now)) result ≡ request_part_of name.now rest.now }
{
    if name == "header" {
        named(Part::Header, rest)
    } else if name == "querystring" {
        named(Part::Query, rest)
    } else if name == "path" {
        named(Part::Path, rest)
    } else {
        None
    }
}

fn response_part<'a>(name: &str, rest: &'a [Text]) -> Option<(Part, &'a str)>
    ensures { option_map (λ s. (s.0, s.1.now)) result ≡ response_part_of name.now rest.now }
{
    if name == "header" {
        named(Part::Header, rest)
    } else if name == "status" {
        bare(Part::Status, rest)
    } else {
        None
    }
}

fn part_below(side: Side, path: &[Text]) -> Option<(Part, &str)>
    ensures { option_map (λ s. (s.0, s.1.now)) result ≡ part_below_of side path.now }
{
    let Some((name, rest)) = path.split_first() else {
        return None;
    };
    match side {
        Side::Request => request_part(name.as_str(), rest),
        Side::Response => response_part(name.as_str(), rest),
    }
}

fn group(side: Side) -> &'static str
    ensures { result.now ≡ group_of side }
{
    match side {
        Side::Request => "requestOverride",
        Side::Response => "responseOverride",
    }
}

/// The part of a message, and the name in it, that a path writes over; none where it may not be written.
#[tactic(auto, unfolding(crate::specs::Writing::slot_of))]
pub fn slot_of(side: Side, path: &[Text]) -> Option<(Part, &str)>
    ensures { option_map (λ s. (s.0, s.1.now)) result ≡ slot_of_path side path.now }
{
    let Some((first, rest)) = path.split_first() else {
        return None;
    };
    if first.as_str() == group(side) {
        part_below(side, rest)
    } else {
        None
    }
}

// A text of its own.
fn owned(alloc: Global, text: &str) -> Result<Text, Memory>
    ensures { IfOk result (λ made. made ≡ text.now) }
{
    Ok(Text::of(String::from_str(alloc, text)?))
}

// The name under which a write is kept.
fn kept_name(alloc: Global, part: Part, name: &str) -> Result<Text, Memory>
    ensures { IfOk result (λ made. made ≡ kept_name_of part name.now) }
{
    match part {
        Part::Header => Ok(Text::of(lower(alloc, name)?)),
        Part::Query | Part::Path | Part::Status => owned(alloc, name),
    }
}

// The path of a part and a name.
fn path_at(alloc: Global, side: Side, part: Part, name: Text) -> Result<Vec<Text>, Memory>
    ensures { IfOk result (λ made. made.items ≡ path_at_of side part name) }
{
    let mut path = Vec::new(alloc);
    path.push(owned(alloc, group(side))?)?;
    match part {
        Part::Header => {
            path.push(owned(alloc, "header")?)?;
            path.push(name)?;
        }
        Part::Query => {
            path.push(owned(alloc, "querystring")?)?;
            path.push(name)?;
        }
        Part::Path => {
            path.push(owned(alloc, "path")?)?;
            path.push(name)?;
        }
        Part::Status => path.push(owned(alloc, "status")?)?,
    }
    Ok(path)
}

/// The path under which a write to a path below `$context` is kept; none where it may not be written.
pub(crate) fn kept_at(alloc: Global, side: Side, path: &[Text]) -> Result<Option<Vec<Text>>, Memory>
    ensures { IfOk result (λ kept. option_map (λ p. p.items) kept ≡ kept_at_of side path.now) }
{
    match slot_of(side, path) {
        Some((part, name)) => {
            let name = kept_name(alloc, part, name)?;
            Ok(Some(path_at(alloc, side, part, name)?))
        }
        None => Ok(None),
    }
}
