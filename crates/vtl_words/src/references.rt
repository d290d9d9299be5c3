// References and their steps.
ghost use Rattle.std.specs.Prelude.{◌≡◌};
ghost use Rattle.vtl_grammar.specs.References.{begun as begun_of, step_front as step_front_of, begins_operand as begins_operand_of, dots_in as dots_in_of, dots_out as dots_out_of};
ghost use Rattle.vtl_words.specs.Fronts.{begun_view, step_view, dots_view};
ghost use Rattle.vtl_words.specs.Views.{how_of};

use crate::bytes::{is_digit, name_at, taken};
use crate::operators::How;

/// What follows a `$`.
#[derive(Drop)]
pub enum Begun<'a> {
    /// A reference: its name, and what follows the name.
    Reference {
        quiet: bool,
        braced: bool,
        name: &'a [u8],
        rest: &'a [u8],
    },
    /// No reference: the place where its name is missing.
    Nameless(&'a [u8]),
}

/// What stands where a step of a reference may.
#[derive(Drop)]
pub enum StepFront<'a> {
    /// `.name`, and what follows it.
    Name(&'a [u8], &'a [u8]),
    /// `.name(`, and what follows the bracket.
    Call(&'a [u8], &'a [u8]),
    /// What follows a `[`.
    Index(&'a [u8]),
    /// What follows a `.` behind which no identifier stands.
    Dot(&'a [u8]),
    Nothing,
}

/// What a dot does that no identifier follows.
#[derive(Clone, Copy, Debug, PartialEq, Eq)]
pub enum Dots {
    /// It ends the reference.
    Free,
    /// It may not stand.
    Strict,
    /// It may begin the `..` of a range.
    Ranged,
}

/// In an expression.
pub fn dots_in(how: How, braced: bool) -> Dots
    ensures { dots_view result ≡ dots_in_of (how_of how) braced }
{
    match (how, braced) {
        (How::Ranging, false) => Dots::Ranged,
        _ => Dots::Strict,
    }
}

/// In text and in a string.
pub fn dots_out(braced: bool) -> Dots
    ensures { dots_view result ≡ dots_out_of braced }
{
    if braced { Dots::Strict } else { Dots::Free }
}

/// The reference whose `$` stands before these bytes.
pub fn begun_at(bs: &[u8]) -> Begun<'_>
    ensures { begun_view result ≡ begun_of bs.now }
{
    let (quiet, behind) = taken(b'!', bs);
    let (braced, at) = taken(b'{', behind);
    match name_at(at) {
        Some((name, rest)) => Begun::Reference {
            quiet,
            braced,
            name,
            rest,
        },
        None => Begun::Nameless(at),
    }
}

/// The step at the front.
pub fn step_front(bs: &[u8]) -> StepFront<'_>
    ensures { step_view result ≡ step_front_of bs.now }
{
    match bs {
        [b'.', rest @ ..] => match name_at(rest) {
            Some((name, [b'(', inside @ ..])) => StepFront::Call(name, inside),
            Some((name, more)) => StepFront::Name(name, more),
            None => StepFront::Dot(rest),
        },
        [b'[', inside @ ..] => StepFront::Index(inside),
        _ => StepFront::Nothing,
    }
}

/// Whether an expression may begin with this byte.
pub fn begins_operand(b: u8) -> bool
    ensures { result ≡ begins_operand_of b }
{
    is_digit(b)
        || b == b'$'
        || b == b'-'
        || b == b'\''
        || b == b'"'
        || b == b'['
        || b == b'{'
        || b == b'('
        || b == b'!'
        || b == b't'
        || b == b'f'
        || b == b'n'
}
