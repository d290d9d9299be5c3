// One text in the place of another.
ghost use Rattle.std.specs.Prelude.{◌≡◌, ◌<◌, ◌≤◌, ◌++◌, length, IfOk, MatchOption};
ghost use Rattle.std.specs.Option.{option_map};
ghost use Rattle.std.specs.String.{string_bytes};
ghost use Rattle.vtl_texts.specs.Places.{exchanged, within};

use crate::places::split_once;
use crate::single::with_byte;
use gw_base::Memory;
use std::alloc::Global;

/// The text with `to` in the place of each `from`, from the left; none where that is longer than `most` bytes, which
/// is found before it is made.
pub fn replace(
    alloc: Global,
    text: &str,
    from: &str,
    to: &str,
    most: u64,
) -> Result<Option<String>, Memory>
    requires { 0 < length from.now }
    ensures value { IfOk result (λ made. option_map string_bytes made ≡ within most (exchanged text.now from.now to.now)) }

    // A text that is put in its own place changes nothing.
    ensures same { from.now ≡ to.now → IfOk result (λ made. option_map string_bytes made ≡ within most text.now) }
{
    let Some(bytes) = made_length(text, from, to, most) else {
        return Ok(None);
    };
    Ok(Some(make(alloc, text, from, to, bytes as usize)?))
}

/// How many bytes the replacing gives; none where they are more than `most`.
fn made_length(text: &str, from: &str, to: &str, most: u64) -> Option<u64>
    requires { 0 < length from.now }
    ensures { MatchOption result (most < length (exchanged text.now from.now to.now)) (λ n. (n ≡ length (exchanged text.now from.now to.now)) × (n ≤ most)) }
{
    if from.len() != to.len() {
        return exchanged_length(text, from, to, most);
    }
    let bytes = text.len() as u64;
    if most < bytes {
        return None;
    }
    Some(bytes)
}

/// The replaced text, which has so many bytes.
fn make(alloc: Global, text: &str, from: &str, to: &str, bytes: usize) -> Result<String, Memory>
    requires { 0 < length from.now }
    ensures { IfOk result (λ made. string_bytes made ≡ exchanged text.now from.now to.now) }
{
    match (from.as_bytes(), to.as_bytes()) {
        ([old], [new]) if new.is_ascii() && text.is_ascii() => with_byte(alloc, text, *old, *new),
        _ => exchange(String::with_capacity(alloc, bytes)?, text, from, to),
    }
}

/// The same, counted part by part.
fn exchanged_length(text: &str, from: &str, to: &str, most: u64) -> Option<u64>
    requires { 0 < length from.now }
    ensures { MatchOption result (most < length (exchanged text.now from.now to.now)) (λ n. (n ≡ length (exchanged text.now from.now to.now)) × (n ≤ most)) }
{
    let mut room = most;
    let mut rest = text;
    while let Some((before, behind)) = split_once(rest, from) {
        if room < before.len() as u64 {
            return None;
        }
        room -= before.len() as u64;
        if room < to.len() as u64 {
            return None;
        }
        room -= to.len() as u64;
        rest = behind;
    }
    if room < rest.len() as u64 {
        return None;
    }
    Some(most - (room - rest.len() as u64))
}

/// Writes the replaced text behind what is made.
fn exchange(mut made: String, text: &str, from: &str, to: &str) -> Result<String, Memory>
    requires { 0 < length from.now }
    ensures { IfOk result (λ all. string_bytes all ≡ string_bytes made ++ exchanged text.now from.now to.now) }
{
    let mut rest = text;
    while let Some((before, behind)) = split_once(rest, from) {
        made.push_str(before)?;
        made.push_str(to)?;
        rest = behind;
    }
    made.push_str(rest)?;
    Ok(made)
}
