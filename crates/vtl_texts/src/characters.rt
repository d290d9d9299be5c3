// Lengths and places, which count characters.
ghost use Rattle.std.specs.Prelude.{◌≡◌, ◌≤◌, ◌<◌, pos, drop, length, MatchOption};
ghost use Rattle.std.specs.Option.{option_copied};
ghost use Rattle.std.specs.Str.{chars, IsUtf8};
ghost use Rattle.vtl_texts.specs.Characters.{text_length, place_of, substring, substring_from, index_of};

use crate::places::split_once;

/// How many characters the text has.
pub fn length(text: &str) -> usize
    ensures { result ≡ text_length text.now }
{
    // Each byte of ASCII is a character.
    if text.is_ascii() {
        return text.len();
    }
    text.chars().count()
}

/// The text behind its first `n` characters; none where it has fewer.
fn past(text: &str, n: usize) -> Option<&str>
    ensures { MatchOption result (length (chars text.now) < n) (λ rest. (n ≤ length (chars text.now)) × (chars rest.now ≡ drop n (chars text.now)) × IsUtf8 rest.now) }
{
    let mut rest = text.chars();
    for _k in 0..n {
        let Some(_passed) = rest.next() else {
            return None;
        };
    }
    Some(rest.as_str())
}

/// A place in a text; none where it is negative.
fn place(i: i64) -> Option<usize>
    ensures { result ≡ place_of i }
{
    if i < 0 {
        return None;
    }
    Some(i as usize)
}

/// The text from character `from` on, counted from 0; none where that is negative or past the length.
pub fn substring_from(text: &str, from: i64) -> Option<&str>
    ensures { option_copied result ≡ substring_from text.now from }
{
    let Some(from) = place(from) else {
        return None;
    };
    past(text, from)
}

/// The text from character `from` up to character `to`; none where one is negative or past the length, or `from` is
/// the greater.
pub fn substring(text: &str, from: i64, to: i64) -> Option<&str>
    ensures { option_copied result ≡ substring text.now from to }
{
    let Some(from) = place(from) else {
        return None;
    };
    let Some(to) = place(to) else {
        return None;
    };
    if to < from {
        return None;
    }
    between(text, from, to)
}

/// The text from character `from` up to character `to`; none where it has fewer.
fn between(text: &str, from: usize, to: usize) -> Option<&str>
    requires { from ≤ to }
    ensures { option_copied result ≡ substring text.now (pos from) (pos to) }
{
    let Some(start) = past(text, from) else {
        return None;
    };
    let Some(end) = past(start, to - from) else {
        return None;
    };
    let (taken, _) = start.split_at(start.len() - end.len());
    Some(taken)
}

/// How many characters stand before the first `part`; none where it stands nowhere.
pub fn index_of(text: &str, part: &str) -> Option<usize>
    ensures { result ≡ index_of text.now part.now }
{
    let Some((before, _)) = split_once(text, part) else {
        return None;
    };
    Some(length(before))
}
