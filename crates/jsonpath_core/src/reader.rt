// Reads the steps of a path from left to right. Each function takes n, the length of the whole text.
ghost use Rattle.std.specs.Prelude.{◌≡◌, ◌≢◌, ◌-◌, ◌<◌, ◌≤◌, length, take, drop, true, [], None, Some, IfOk, IfSome, MatchOption};
ghost use Rattle.std.specs.List.{list_all};
ghost use Rattle.jsonpath_core.specs.Reading as says;
ghost use Rattle.jsonpath_core.specs.Spelling.{is_digit as is_digit_of, is_name_byte as is_name_byte_of, is_not, number_of};
ghost use Rattle.jsonpath_core.specs.Steps as steps;
ghost use Rattle.jsonpath_core.specs.Views.{AreKept, Gives, IsKept, step_view, steps_view};

use crate::fault::PathFault;
use crate::step::Step;
use gw_base::Text;
use std::alloc::{AllocError, Global};

/// The steps of a path.
#[tactic(auto, unfolding(crate::specs::Reading::path_of))]
pub fn read_path(alloc: Global, text: &str) -> Result<Vec<Step>, PathFault>
    ensures gives { Gives (λ v. steps_view v.items) result (says.path_of text.now) }
    ensures kept { IfOk result (λ v. AreKept v.items) }
{
    match behind(text, '$') {
        Some(rest) => read_steps(alloc, text.len(), rest),
        None => Err(PathFault::BadPath(0)),
    }
}

fn read_steps(alloc: Global, n: usize, text: &str) -> Result<Vec<Step>, PathFault>
    ensures gives { Gives (λ v. steps_view v.items) result (says.steps_of n text.now) }
    ensures kept { IfOk result (λ v. AreKept v.items) }
{
    let mut steps = Vec::new(alloc);
    let mut rest = text;
    while !rest.is_empty() {
        let (step, next) = read_step(alloc, n, rest)?;
        steps.push(step)?;
        rest = next;
    }
    Ok(steps)
}

/// The step at the front, and what follows it.
#[tactic(auto, unfolding(crate::specs::Reading::step))]
fn read_step(alloc: Global, n: usize, text: &str) -> Result<(Step, &str), PathFault>
    ensures gives { Gives (λ p. (step_view p.0, p.1.now)) result (says.step n text.now) }
    ensures kept { IfOk result (λ p. IsKept p.0) }
    ensures shorter { IfOk result (λ p. length p.1.now < length text.now) }
{
    if let Some(rest) = behind(text, '.') {
        return read_dotted(alloc, n, rest);
    }
    match behind(text, '[') {
        Some(rest) => read_bracketed(alloc, n, rest),
        None => Err(PathFault::BadPath(place(n, text))),
    }
}

/// Behind a dot.
fn read_dotted(alloc: Global, n: usize, text: &str) -> Result<(Step, &str), PathFault>
    ensures gives { Gives (λ p. (step_view p.0, p.1.now)) result (says.dotted n text.now) }
    ensures kept { IfOk result (λ p. IsKept p.0) }
    ensures within { IfOk result (λ p. length p.1.now ≤ length text.now) }
{
    if let Some(rest) = behind(text, '*') {
        return Ok((Step::Star, rest));
    }
    let (name, rest) = split_name(text);
    if name.is_empty() {
        return Err(PathFault::BadPath(place(n, rest)));
    }
    Ok((Step::Name(copied(alloc, name)?), rest))
}

/// Behind an opening bracket.
fn read_bracketed(alloc: Global, n: usize, text: &str) -> Result<(Step, &str), PathFault>
    ensures gives { Gives (λ p. (step_view p.0, p.1.now)) result (says.bracketed n text.now) }
    ensures kept { IfOk result (λ p. IsKept p.0) }
    ensures within { IfOk result (λ p. length p.1.now ≤ length text.now) }
{
    if let Some(rest) = behind(text, '*') {
        return closed(n, Step::Star, rest);
    }
    if let Some(rest) = behind(text, '\'') {
        return read_quoted(alloc, n, '\'', rest);
    }
    if let Some(rest) = behind(text, '"') {
        return read_quoted(alloc, n, '"', rest);
    }
    let (digits, rest) = split_digits(text);
    if digits.is_empty() {
        return Err(PathFault::BadPath(place(n, rest)));
    }
    closed(n, index_step(alloc, digits)?, rest)
}

/// Behind the quote that opens a name.
fn read_quoted(alloc: Global, n: usize, quote: char, text: &str) -> Result<(Step, &str), PathFault>
    requires { quote < 128 }
    ensures gives { Gives (λ p. (step_view p.0, p.1.now)) result (says.quoted_name n quote text.now) }
    ensures kept { IfOk result (λ p. IsKept p.0) }
    ensures within { IfOk result (λ p. length p.1.now ≤ length text.now) }
{
    let Some((name, rest)) = text.split_once(quote) else {
        return Err(PathFault::BadPath(n));
    };
    closed(n, Step::Name(copied(alloc, name)?), rest)
}

/// A step whose bracket closes here.
fn closed(n: usize, step: Step, text: &str) -> Result<(Step, &str), PathFault>
    requires { IsKept step }
    ensures gives { Gives (λ p. (step_view p.0, p.1.now)) result (says.closed n (step_view step) text.now) }
    ensures kept { IfOk result (λ p. IsKept p.0) }
    ensures within { IfOk result (λ p. length p.1.now ≤ length text.now) }
{
    match behind(text, ']') {
        Some(rest) => Ok((step, rest)),
        None => Err(PathFault::BadPath(place(n, text))),
    }
}

/// The step to the item at the place that the digits spell.
fn index_step(alloc: Global, digits: &str) -> Result<Step, AllocError>
    requires some { digits.now ≢ [] }
    requires digits { list_all is_digit_of digits.now ≡ true }
    ensures gives { IfOk result (λ s. step_view s ≡ steps.index (number_of digits.now)) }
    ensures kept { IfOk result IsKept }
{
    match digits.parse::<u32>() {
        Ok(i) => Ok(Step::Index(i)),
        Err(_) => Ok(Step::Past(copied(alloc, digits)?)),
    }
}

/// What follows the character, where it stands at the front.
fn behind(text: &str, c: char) -> Option<&str>
    requires { c < 128 }
    ensures value { MatchOption result (says.behind c text.now ≡ None) (λ rest. says.behind c text.now ≡ Some rest.now) }
    ensures shorter { IfSome result (λ rest. length rest.now < length text.now) }
{
    text.strip_prefix(c)
}

/// The place of the front of the rest.
fn place(n: usize, rest: &str) -> usize
    ensures { result ≡ n - length rest.now }
{
    n.saturating_sub(rest.len())
}

fn copied(alloc: Global, text: &str) -> Result<Text, AllocError>
    ensures { IfOk result (λ copy. copy ≡ text.now) }
{
    Ok(Text::of(String::from_str(alloc, text)?))
}

/// The bytes of a bare name at the front, and what follows them.
fn split_name(text: &str) -> (&str, &str)
    ensures front { result.0.now ≡ says.run is_name_byte_of text.now }
    ensures rest { result.1.now ≡ says.past_run is_name_byte_of text.now }
    ensures within { length result.1.now ≤ length text.now }
{
    text.split_at(name_len(text.as_bytes()))
}

fn name_len(bytes: &[u8]) -> usize
    ensures front { take result bytes.now ≡ says.run is_name_byte_of bytes.now }
    ensures rest { drop result bytes.now ≡ says.past_run is_name_byte_of bytes.now }
    ensures within { result ≤ length bytes.now }
{
    let mut count = 0;
    while count < bytes.len() && is_name_byte(bytes[count]) {
        count += 1;
    }
    count
}

/// The digits at the front, and what follows them.
fn split_digits(text: &str) -> (&str, &str)
    ensures front { result.0.now ≡ says.run is_digit_of text.now }
    ensures rest { result.1.now ≡ says.past_run is_digit_of text.now }
    ensures digits { list_all is_digit_of result.0.now ≡ true }
    ensures within { length result.1.now ≤ length text.now }
{
    text.split_at(digits_len(text.as_bytes()))
}

fn digits_len(bytes: &[u8]) -> usize
    ensures front { take result bytes.now ≡ says.run is_digit_of bytes.now }
    ensures rest { drop result bytes.now ≡ says.past_run is_digit_of bytes.now }
    ensures within { result ≤ length bytes.now }
{
    let mut count = 0;
    while count < bytes.len() && bytes[count].is_ascii_digit() {
        count += 1;
    }
    count
}

/// Whether it is an ASCII letter, a digit, `_`, `-`, or a byte of a character past ASCII.
fn is_name_byte(byte: u8) -> bool
    ensures { result ≡ is_name_byte_of byte }
{
    byte.is_ascii_alphanumeric() || matches!(byte, b'_' | b'-') || byte >= 128
}
