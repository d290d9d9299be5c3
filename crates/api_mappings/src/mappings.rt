// Reads the targets and the sources of mappings.
ghost use Rattle.std.specs.Prelude.{◌≡◌, IfOk, codes};
ghost use Rattle.std.specs.Option.{option_map};
ghost use Rattle.vtl_texts.specs.Places.{behind as behind_of};
ghost use Rattle.api_mappings.specs.Mappings as says;

use crate::names::{is_dotted, is_own_header, is_path_name};
use crate::texts::{before_last, behind, copy};
use api_parts::{Origin, ParameterPlace};
use gw_base::{Memory, is_name, is_token};
use jsonpath_core::{Path, PathFault};
use resource_tree::read_parts;
use std::alloc::Global;

// `path.N`, `querystring.N` or `header.N`.
#[tactic(auto, unfolding(crate::specs::Mappings::spot))]
fn spot(text: &str) -> Option<(ParameterPlace, &str)>
    ensures { option_map (λ s. (s.0, s.1.now)) result ≡ says.spot text.now }
{
    if let Some(name) = behind(text, "path.") {
        return if is_path_name(name) {
            Some((ParameterPlace::Path, name))
        } else {
            None
        };
    }
    if let Some(name) = behind(text, "querystring.") {
        return if !name.is_empty() {
            Some((ParameterPlace::Query, name))
        } else {
            None
        };
    }
    match behind(text, "header.") {
        Some(name) if is_token(name) => Some((ParameterPlace::Header, name)),
        _ => None,
    }
}

/// Whether the path of a resource has a part `{N}` or `{N+}` of this name. A text that is no path has none.
#[tactic(auto, unfolding(crate::specs::Mappings::has_parameter))]
pub fn has_parameter(alloc: Global, path: &str, name: &str) -> Result<bool, Memory>
    ensures { IfOk result (λ b. b ≡ says.has_parameter path.now name.now) }
{
    match read_parts(alloc, path)? {
        Some(parts) => Ok(resource_tree::has_parameter(parts.as_slice(), name)),
        None => Ok(false),
    }
}

fn stands_in(alloc: Global, path: &str, place: ParameterPlace, name: &str) -> Result<bool, Memory>
    ensures { IfOk result (λ b. b ≡ says.stands_in path.now (place, name.now)) }
{
    match place {
        ParameterPlace::Path => has_parameter(alloc, path, name),
        ParameterPlace::Query | ParameterPlace::Header => Ok(true),
    }
}

// A parameter behind `method.request.` that the resource has.
fn parameter_behind<'a>(
    alloc: Global,
    path: &str,
    rest: &'a str,
) -> Result<Option<(ParameterPlace, &'a str)>, Memory>
    ensures { IfOk result (λ o. option_map (λ s. (s.0, s.1.now)) o ≡ says.if_stands path.now (says.spot rest.now)) }
{
    let Some((place, name)) = spot(rest) else {
        return Ok(None);
    };
    if stands_in(alloc, path, place, name)? {
        Ok(Some((place, name)))
    } else {
        Ok(None)
    }
}

/// A parameter that a method of the resource of this path may name: `method.request.path.N`, `method.request.querystring.N`
/// or `method.request.header.N`.
#[tactic(auto, unfolding(crate::specs::Mappings::parameter_of, crate::specs::Mappings::request_parameter))]
pub fn parameter<'a>(
    alloc: Global,
    path: &str,
    text: &'a str,
) -> Result<Option<(ParameterPlace, &'a str)>, Memory>
    ensures { IfOk result (λ o. option_map (λ s. (s.0, s.1.now)) o ≡ says.parameter_of path.now text.now) }
{
    match behind(text, "method.request.") {
        Some(rest) => parameter_behind(alloc, path, rest),
        None => Ok(None),
    }
}

fn may_be_written(place: ParameterPlace, name: &str) -> bool
    ensures { result ≡ says.may_be_written (place, name.now) }
{
    match place {
        ParameterPlace::Path | ParameterPlace::Query => true,
        ParameterPlace::Header => !is_own_header(name),
    }
}

/// Where a value may be written in a backend's request: `integration.request.path.N`, `integration.request.querystring.N`
/// or `integration.request.header.N`.
#[tactic(auto, unfolding(crate::specs::Mappings::request_target))]
pub fn request_target(text: &str) -> Option<(ParameterPlace, &str)>
    ensures { option_map (λ s. (s.0, s.1.now)) result ≡ says.request_target text.now }
{
    let Some(rest) = behind(text, "integration.request.") else {
        return None;
    };
    let Some((place, name)) = spot(rest) else {
        return None;
    };
    if may_be_written(place, name) {
        Some((place, name))
    } else {
        None
    }
}

/// A header that a value may be written into in the gateway's own answers.
#[tactic(auto, unfolding(crate::specs::Mappings::gateway_target))]
pub fn gateway_target(text: &str) -> Option<(ParameterPlace, &str)>
    ensures { option_map (λ s. (s.0, s.1.now)) result ≡ says.gateway_target text.now }
{
    if is_token(text) && !is_own_header(text) {
        Some((ParameterPlace::Header, text))
    } else {
        None
    }
}

/// Where a value may be written in an answer: `method.response.header.N`.
#[tactic(auto, unfolding(crate::specs::Mappings::response_target, crate::specs::Mappings::gateway_target))]
pub fn response_target(text: &str) -> Option<(ParameterPlace, &str)>
    ensures { option_map (λ s. (s.0, s.1.now)) result ≡ says.response_target text.now }
{
    match behind(text, "method.response.header.") {
        Some(name) => gateway_target(name),
        None => None,
    }
}

// A text between quotes.
fn read_quoted(alloc: Global, text: &str) -> Result<Option<Origin>, Memory>
    ensures { IfOk result (λ o. o ≡ says.quoted (behind_of (codes "'") text.now)) }
{
    let Some(rest) = behind(text, "'") else {
        return Ok(None);
    };
    match before_last(rest, '\'') {
        Some(inner) => Ok(Some(Origin::Static(copy(alloc, inner)?))),
        None => Ok(None),
    }
}

/// A source that stands everywhere: `context.X`, `stageVariables.N` or `'text'`.
#[tactic(auto, unfolding(crate::specs::Mappings::plain_source))]
pub fn plain_source(alloc: Global, text: &str) -> Result<Option<Origin>, Memory>
    ensures { IfOk result (λ o. o ≡ says.plain_source text.now) }
{
    if let Some(name) = behind(text, "context.") {
        if is_dotted(name) {
            return Ok(Some(Origin::Context(copy(alloc, name)?)));
        }
        return Ok(None);
    }
    if let Some(name) = behind(text, "stageVariables.") {
        if is_name(name) {
            return Ok(Some(Origin::StageVariable(copy(alloc, name)?)));
        }
        return Ok(None);
    }
    read_quoted(alloc, text)
}

// A part of a body, by its path behind `$.`.
#[tactic(auto, unfolding(crate::specs::Mappings::body_source))]
fn body_source(alloc: Global, rest: &str) -> Result<Option<Origin>, Memory>
    ensures { IfOk result (λ o. o ≡ says.body_source rest.now) }
{
    let Ok(text) = format!(in alloc; "$.{rest}") else {
        return Err(Memory);
    };
    match Path::read(alloc, text.as_str()) {
        Ok(path) => Ok(Some(Origin::Body(path))),
        Err(PathFault::BadPath(_)) => Ok(None),
        Err(PathFault::Memory) => Err(Memory),
    }
}

/// What may be mapped into a backend's request, of a method of the resource of this path.
#[tactic(auto, unfolding(crate::specs::Mappings::request_source))]
pub fn request_source(alloc: Global, path: &str, text: &str) -> Result<Option<Origin>, Memory>
    ensures { IfOk result (λ o. o ≡ says.request_source path.now text.now) }
{
    if let Some(rest) = behind(text, "method.request.body.") {
        return body_source(alloc, rest);
    }
    let Some(rest) = behind(text, "method.request.") else {
        return plain_source(alloc, text);
    };
    match parameter_behind(alloc, path, rest)? {
        Some((place, name)) => Ok(Some(Origin::Parameter(place, copy(alloc, name)?))),
        None => Ok(None),
    }
}

/// What may be mapped into an answer.
#[tactic(auto, unfolding(crate::specs::Mappings::response_source))]
pub fn response_source(alloc: Global, text: &str) -> Result<Option<Origin>, Memory>
    ensures { IfOk result (λ o. o ≡ says.response_source text.now) }
{
    if let Some(rest) = behind(text, "integration.response.body.") {
        return body_source(alloc, rest);
    }
    let Some(name) = behind(text, "integration.response.header.") else {
        return plain_source(alloc, text);
    };
    if is_token(name) {
        Ok(Some(Origin::ReplyHeader(copy(alloc, name)?)))
    } else {
        Ok(None)
    }
}
