// The segments of a path.
ghost use Rattle.std.specs.Prelude.{◌≡◌, ◌==◌, ℕ, List, map, IfOk};
ghost use Rattle.std.specs.Borrow.{Bor};
ghost use Rattle.std.specs.List.{slice_split};
ghost use Rattle.std.specs.String.{string_bytes};
ghost use Rattle.call_facts.specs.Target.{past};
ghost use Rattle.method_checks.specs.Segments.{decoded, ends_empty as ends_empty_of, without_last_empty as without_last_empty_of, segments_of};

use gw_base::{Memory, Text};
use percent_encoding::percent_decode;
use std::alloc::{AllocError, Global};

// What stands behind the first slash.
#[tactic(auto, unfolding(call_facts::specs::Target::past))]
fn behind_slash(path: &str) -> &str
    ensures { result.now ≡ past 47 path.now }
{
    match path.split_once('/') {
        Some((_, rest)) => rest,
        None => "",
    }
}

fn parts_in<'a>(alloc: Global, rest: &'a str) -> Result<Vec<&'a str>, AllocError>
    ensures { IfOk result (λ parts. map (λ (part : Bor (List ℕ)). part.now) parts.items ≡ slice_split (λ b. b == 47) rest.now) }
{
    rest.split('/').collect(alloc)
}

fn ends_empty(parts: &[&str]) -> bool
    ensures { result ≡ ends_empty_of (map (λ (part : Bor (List ℕ)). part.now) parts.now) }
{
    !parts.is_empty() && parts[parts.len() - 1].is_empty()
}

// The parts without one empty part at their end.
fn without_last_empty<'a, 'b>(parts: &'b [&'a str]) -> &'b [&'a str]
    ensures { map (λ (part : Bor (List ℕ)). part.now) result.now ≡ without_last_empty_of (map (λ (part : Bor (List ℕ)). part.now) parts.now) }
{
    if ends_empty(parts) {
        &parts[..parts.len() - 1]
    } else {
        parts
    }
}

fn decode(alloc: Global, part: &str) -> Result<Text, Memory>
    ensures { IfOk result (λ segment. segment ≡ decoded part.now) }
{
    let text = percent_decode(part.as_bytes()).decode_utf8_lossy(alloc)?;
    Ok(Text::of(text.into_owned(alloc)?))
}

fn decode_all(alloc: Global, parts: &[&str]) -> Result<Vec<Text>, Memory>
    ensures { IfOk result (λ segments. segments.items ≡ map decoded (map (λ (part : Bor (List ℕ)). part.now) parts.now)) }
{
    let mut segments = Vec::new(alloc);
    for part in parts {
        segments.push(decode(alloc, part)?)?;
    }
    Ok(segments)
}

/// The segments of a path behind its stage, decoded: what stands between its slashes, without one empty segment at its end.
#[tactic(auto, unfolding(crate::specs::Segments::segments_of))]
pub fn read_segments(alloc: Global, path: &str) -> Result<Vec<Text>, Memory>
    ensures { IfOk result (λ segments. segments.items ≡ segments_of path.now) }
{
    let parts = parts_in(alloc, behind_slash(path))?;
    decode_all(alloc, without_last_empty(&parts))
}
