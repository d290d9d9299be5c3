// The parts of a request's target.
ghost use Rattle.std.specs.Prelude.{◌≡◌, ◌<◌, IfOk, map};
ghost use Rattle.std.specs.String.{string_bytes};
ghost use Rattle.call_facts.specs.Target.{until, past, from, behind_root as behind_root_of, target_of, query_pairs as query_pairs_of, form_decoded};

use form_urlencoded::raw_pairs;
use gw_base::{Memory, Seq, Text};
use std::alloc::Global;

/// What a request's target names (RFC 9112, section 3.2): `/API/STAGE`, the rest of the path and a query, or the same behind
/// `http://AUTHORITY`. API, stage and path are taken as they are written; what is missing is empty, and so are all
/// parts of the path of a target of another form.
#[derive(Drop)]
pub struct Target {
    /// The API.
    pub api: Text,
    /// The stage.
    pub stage: Text,
    /// The path behind the stage, with the slash that it begins with; empty where none stands.
    pub path: Text,
    /// The pairs of the query, decoded.
    pub query: Seq<(Text, Text)>,
}

// What stands before the first of these characters, and what behind it; all and nothing where it stands nowhere.
#[tactic(auto, unfolding(crate::specs::Target::until, crate::specs::Target::past))]
fn parted_at(text: &str, c: char) -> (&str, &str)
    requires { c < 128 }
    ensures before { result.0.now ≡ until c text.now }
    ensures behind { result.1.now ≡ past c text.now }
{
    match text.split_once(c) {
        Some(parts) => parts,
        None => (text, ""),
    }
}

fn past_slash(text: &str) -> &str
    ensures { result.now ≡ past 47 text.now }
{
    let (_, rest) = parted_at(text, '/');
    rest
}

#[tactic(auto, using(std::proofs::lemmas::Str::Pattern::starts_text))]
fn behind_root(path: &str) -> &str
    ensures { result.now ≡ behind_root_of path.now }
{
    if path.starts_with("http://") {
        past_slash(past_slash(past_slash(path)))
    } else if path.starts_with("/") {
        past_slash(path)
    } else {
        ""
    }
}

fn copied(alloc: Global, text: &str) -> Result<Text, Memory>
    ensures { IfOk result (λ made. made ≡ text.now) }
{
    Ok(Text::of(String::from_str(alloc, text)?))
}

// What stands from the first slash on.
#[tactic(auto, unfolding(crate::specs::Target::from))]
fn from_slash(alloc: Global, text: &str) -> Result<Text, Memory>
    ensures { IfOk result (λ made. made ≡ from 47 text.now) }
{
    let mut made = String::new(alloc);
    if let Some((_, behind)) = text.split_once('/') {
        made.push_str("/")?;
        made.push_str(behind)?;
    }
    Ok(Text::of(made))
}

/// What these bytes of a form stand for (URL Standard, section 5.1): `+` is a space, and bytes that are no UTF-8 become U+FFFD.
pub fn decode_form(alloc: Global, bytes: &[u8]) -> Result<String, Memory>
    ensures { IfOk result (λ made. string_bytes made ≡ form_decoded bytes.now) }
{
    let decoded = form_urlencoded::decode(alloc, bytes)?;
    Ok(decoded.into_owned(alloc)?)
}

// The pairs of a query, decoded.
#[tactic(auto, unfolding(crate::specs::Target::query_pairs))]
fn query_pairs(alloc: Global, query: &str) -> Result<Vec<(Text, Text)>, Memory>
    ensures { IfOk result (λ pairs. pairs.items ≡ query_pairs_of query.now) }
{
    let mut pairs = Vec::new(alloc);
    for (name, value) in raw_pairs(query.as_bytes()) {
        let name = Text::of(decode_form(alloc, name)?);
        let value = Text::of(decode_form(alloc, value)?);
        pairs.push((name, value))?;
    }
    Ok(pairs)
}

impl Target {
    /// The parts of a target.
    #[tactic(auto, unfolding(crate::specs::Target::target_of))]
    pub fn read(alloc: Global, target: &str) -> Result<Self, Memory>
        ensures { IfOk result (λ made. made ≡ target_of target.now) }
    {
        let (path, query) = parted_at(target, '?');
        let path = behind_root(path);
        let (api, rest) = parted_at(path, '/');
        let (stage, _) = parted_at(rest, '/');
        Ok(Target {
            api: copied(alloc, api)?,
            stage: copied(alloc, stage)?,
            path: from_slash(alloc, rest)?,
            query: Seq::of(query_pairs(alloc, query)?),
        })
    }
}
