// The forms of directives, without their expressions.
ghost use Rattle.std.specs.Prelude.{◌≡◌, MatchResult, Ok, Err};
ghost use Rattle.vtl_grammar.specs.Bytes.{white as white_of, name_at as name_at_of};
ghost use Rattle.vtl_grammar.specs.Directives.{form as form_of, form_name as form_name_of, bracket as bracket_of, is_root as is_root_of, goes_on as goes_on_of, left_of as left_of_spec, in_or, loop_variable as loop_variable_of, is_apart as is_apart_of, between_of};
ghost use Rattle.vtl_words.specs.Views.{left_view, between_view, bad_form_at};

use crate::bytes::{blanks, is_white, name_at, white};
use crate::names::Names;
use vtl_grammar::Fault;

/// Whose name the left side of a `#set` is.
#[derive(Clone, Copy, Debug, PartialEq, Eq)]
pub enum Left {
    /// A macro's parameter.
    Parameter,
    /// `context`, below which a path may be written.
    ContextPath,
    /// A root or `foreach`, which no `#set` may write.
    Refused,
    /// Another name.
    Free,
}

/// What stands behind an argument of a macro's call.
#[derive(Drop)]
pub enum Between<'a> {
    /// The closing bracket, and what follows it.
    Close(&'a [u8]),
    /// A comma, and what follows it.
    Comma(&'a [u8]),
    /// White space alone, behind which an argument stands.
    Space,
    /// What does not go on.
    Nothing,
}

/// What stands here behind an argument, where white space stood before or not.
pub fn behind_argument(apart: bool, bs: &[u8]) -> Between<'_>
    ensures { between_view result ≡ between_of apart bs.now }
{
    match bs {
        [] => Between::Nothing,
        [b')', rest @ ..] => Between::Close(rest),
        [b',', rest @ ..] => Between::Comma(rest),
        _ => {
            if apart {
                Between::Space
            } else {
                Between::Nothing
            }
        }
    }
}

/// The fault where the form of the directive at this place does not go on.
pub fn bad_form(at: usize, bs: &[u8]) -> Fault
    ensures { result ≡ bad_form_at at bs.now }
{
    if bs.is_empty() {
        Fault::Unclosed(0)
    } else {
        Fault::BadDirective(at)
    }
}

/// What follows this byte, which the form of the directive at this place wants.
pub fn form(at: usize, c: u8, bs: &[u8]) -> Result<&[u8], Fault>
    ensures { MatchResult result (λ rest. form_of at c bs.now ≡ Ok rest.now) (λ f. form_of at c bs.now ≡ Err f) }
{
    match bs {
        [b, rest @ ..] if *b == c => Ok(rest),
        _ => Err(bad_form(at, bs)),
    }
}

/// The identifier that the form of the directive at this place wants, and what follows it.
#[tactic(auto, using(crate::proofs::Bad::bad_form_is))]
pub fn form_name(at: usize, bs: &[u8]) -> Result<(&[u8], &[u8]), Fault>
    ensures { MatchResult result (λ p. form_name_of at bs.now ≡ Ok (p.0.now, p.1.now)) (λ f. form_name_of at bs.now ≡ Err f) }
{
    match name_at(bs) {
        Some(named) => Ok(named),
        None => Err(bad_form(at, bs)),
    }
}

/// What follows the bracket behind the word of the directive at this place.
pub fn bracket(at: usize, bs: &[u8]) -> Result<&[u8], Fault>
    ensures { MatchResult result (λ rest. bracket_of at bs.now ≡ Ok rest.now) (λ f. bracket_of at bs.now ≡ Err f) }
{
    match blanks(bs) {
        [b'(', rest @ ..] => Ok(rest),
        _ => Err(Fault::BadDirective(at)),
    }
}

fn is_root(x: &[u8]) -> bool
    ensures { result ≡ is_root_of x.now }
{
    x == b"context".as_slice()
        || x == b"input".as_slice()
        || x == b"util".as_slice()
        || x == b"stageVariables".as_slice()
}

/// Whose name this is, where these are the parameters of the macro around.
pub fn left_of(params: &Names, x: &[u8]) -> Left
    ensures { left_view result ≡ left_of_spec params.now x.now }
{
    if params.contains(x) {
        Left::Parameter
    } else if x == b"context".as_slice() {
        Left::ContextPath
    } else if is_root(x) || x == b"foreach".as_slice() {
        Left::Refused
    } else {
        Left::Free
    }
}

/// Whether a step or an argument would follow.
pub fn goes_on(bs: &[u8]) -> bool
    ensures { result ≡ goes_on_of bs.now }
{
    matches!(bs, [b'.' | b'[' | b'(', ..])
}

/// Whether white space stands here.
pub fn is_apart(bs: &[u8]) -> bool
    ensures { result ≡ is_apart_of bs.now }
{
    match bs {
        [b, ..] => is_white(*b),
        [] => false,
    }
}

// What follows the word `in` of the `#foreach` at this place.
#[tactic(auto, using(crate::proofs::Bad::bad_form_is))]
fn in_word(at: usize, bs: &[u8]) -> Result<&[u8], Fault>
    ensures { MatchResult result (λ rest. in_or at bs.now (name_at_of bs.now) ≡ Ok rest.now) (λ f. in_or at bs.now (name_at_of bs.now) ≡ Err f) }
{
    match name_at(bs) {
        None => Err(bad_form(at, bs)),
        Some((x, rest)) => {
            if x == b"in".as_slice() {
                Ok(rest)
            } else if matches!(bs, [b'i']) {
                Err(Fault::Unclosed(0))
            } else {
                Err(Fault::BadDirective(at))
            }
        }
    }
}

/// What follows the `in` behind the loop variable x of the `#foreach` at this place.
pub fn loop_variable<'a>(
    at: usize,
    params: &Names,
    x: &[u8],
    bs: &'a [u8],
) -> Result<&'a [u8], Fault>
    ensures { MatchResult result (λ rest. loop_variable_of at params.now x.now bs.now ≡ Ok rest.now) (λ f. loop_variable_of at params.now x.now bs.now ≡ Err f) }
{
    match bs {
        [] => Err(Fault::Unclosed(0)),
        [b, ..] => {
            if !is_white(*b) {
                Err(Fault::BadDirective(at))
            } else if params.contains(x) {
                Err(Fault::ParamAssigned(x.len() + bs.len()))
            } else {
                in_word(at, white(bs))
            }
        }
    }
}
