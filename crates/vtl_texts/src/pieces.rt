// The parts of a text round another.
ghost use Rattle.std.specs.Prelude.{◌≡◌, ◌<◌, length, map, IfOk};
ghost use Rattle.vtl_texts.specs.Places.{parts, without_empty_end, split_at};

use crate::places::split_once;
use gw_base::Memory;
use std::alloc::Global;

/// The parts of the text between the `at`, from the left, without the empty ones at the end; of an empty text one
/// empty part.
pub fn split<'a>(alloc: Global, text: &'a str, at: &str) -> Result<Vec<&'a str>, Memory>
    requires { 0 < length at.now }
    ensures { IfOk result (λ pieces. map (λ p. p.now) pieces.items ≡ split_at text.now at.now) }
{
    let mut pieces = all_parts(alloc, text, at)?;
    if text.is_empty() {
        return Ok(pieces);
    }
    drop_empty_end(&mut pieces);
    Ok(pieces)
}

fn all_parts<'a>(alloc: Global, text: &'a str, at: &str) -> Result<Vec<&'a str>, Memory>
    requires { 0 < length at.now }
    ensures { IfOk result (λ pieces. map (λ p. p.now) pieces.items ≡ parts text.now at.now) }
{
    let mut pieces = Vec::new(alloc);
    let mut rest = text;
    while let Some((before, behind)) = split_once(rest, at) {
        pieces.push(before)?;
        rest = behind;
    }
    pieces.push(rest)?;
    Ok(pieces)
}

fn drop_empty_end(pieces: &mut Vec<&str>)
    ensures { map (λ p. p.now) pieces.new.items ≡ without_empty_end (map (λ p. p.now) pieces.old.items) }
{
    while let Some(last) = pieces.last() {
        if !last.is_empty() {
            return;
        }
        pieces.pop();
    }
}
