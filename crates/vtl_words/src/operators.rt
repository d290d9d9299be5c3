// The binary operators.
ghost use Rattle.std.specs.Prelude.{◌≡◌, ◌≤◌, length, drop, MatchResult, Ok, Err};
ghost use Rattle.vtl_grammar.specs.Bytes.{furthest as furthest_of, is_one_of, name_at as name_at_of, taken as taken_of};
ghost use Rattle.vtl_grammar.specs.Operators.{operator_at as operator_at_of, operator as operator_of, doubled as doubled_of, spelled as spelled_of, word_operator as word_operator_of, rank as rank_of, words_behind, operand_words, or_equal as or_equal_of, ends_argument as ends_argument_of};
ghost use Rattle.vtl_words.specs.Views.{op_of, option_of, how_of, found_of, bad_at};

use crate::bytes::{bad, common, expect, is_letter, is_white, name_at, white};
use vtl_grammar::Fault;

/// A binary operator, from the weakest rank to the strongest.
#[derive(Clone, Copy, Debug, PartialEq, Eq)]
pub enum Operator {
    /// `||`, `or`.
    Or,
    /// `&&`, `and`.
    And,
    /// `==`, `eq`.
    Equal,
    /// `!=`, `ne`.
    Unequal,
    /// `<`, `lt`.
    Less,
    /// `>`, `gt`.
    Greater,
    /// `<=`, `le`.
    AtMost,
    /// `>=`, `ge`.
    AtLeast,
    /// `+`.
    Plus,
    /// `-`.
    Minus,
    /// `*`.
    Times,
    /// `/`.
    Divided,
    /// `%`.
    Remainder,
}

/// What may stand behind an expression in its place.
#[derive(Clone, Copy, Debug, PartialEq, Eq)]
pub enum How {
    /// Only what closes it.
    Alone,
    /// The `..` of a range.
    Ranging,
    /// White space, and then another argument of a macro.
    Argument,
}

/// A binary operator and what follows it, where one stands.
#[derive(Drop)]
pub enum Found<'a> {
    Nothing,
    One(Operator, &'a [u8]),
}

/// How weakly an operator binds: 1 is the strongest, 6 the weakest.
pub fn rank(operator: Operator) -> u32
    ensures { result ≡ rank_of (op_of operator) }
{
    match operator {
        Operator::Or => 6,
        Operator::And => 5,
        Operator::Equal | Operator::Unequal => 4,
        Operator::Less | Operator::Greater | Operator::AtMost | Operator::AtLeast => 3,
        Operator::Plus | Operator::Minus => 2,
        Operator::Times | Operator::Divided | Operator::Remainder => 1,
    }
}

fn word_operator(word: &[u8]) -> Option<Operator>
    ensures { option_of result ≡ word_operator_of word.now }
{
    if word == b"or".as_slice() {
        Some(Operator::Or)
    } else if word == b"and".as_slice() {
        Some(Operator::And)
    } else if word == b"eq".as_slice() {
        Some(Operator::Equal)
    } else if word == b"ne".as_slice() {
        Some(Operator::Unequal)
    } else if word == b"lt".as_slice() {
        Some(Operator::Less)
    } else if word == b"gt".as_slice() {
        Some(Operator::Greater)
    } else if word == b"le".as_slice() {
        Some(Operator::AtMost)
    } else if word == b"ge".as_slice() {
        Some(Operator::AtLeast)
    } else {
        None
    }
}

// How far the text goes alike with a word that may stand behind an operand.
fn furthest(next: bool, bs: &[u8]) -> usize
    ensures value { result ≡ furthest_of (words_behind next) bs.now }
    ensures within { result ≤ length bs.now }
{
    let operands = if next {
        common(b"true", bs).max(common(b"false", bs).max(common(b"not", bs).max(0)))
    } else {
        0
    };
    let orders = common(b"lt", bs).max(common(b"gt", bs).max(common(b"le", bs).max(common(
        b"ge", bs,
    ).max(operands))));
    common(b"or", bs).max(common(b"and", bs).max(common(b"eq", bs).max(common(b"ne", bs).max(
        orders,
    ))))
}

// Where a word is met that is none of these.
fn bad_operator(next: bool, bs: &[u8]) -> Fault
    ensures { result ≡ bad_at (drop (furthest_of (words_behind next) bs.now) bs.now) }
{
    bad(&bs[furthest(next, bs)..])
}

// A doubled sign: its second byte is left.
fn doubled(operator: Operator, c: u8, bs: &[u8]) -> Result<Found<'_>, Fault>
    ensures { MatchResult result (λ r. doubled_of (op_of operator) c bs.now ≡ Ok (found_of r)) (λ f. doubled_of (op_of operator) c bs.now ≡ Err f) }
{
    let rest = expect(c, bs)?;
    Ok(Found::One(operator, rest))
}

fn is_operand_word(word: &[u8]) -> bool
    ensures { result ≡ is_one_of operand_words word.now }
{
    b"true".as_slice() == word || b"false".as_slice() == word || b"not".as_slice() == word
}

// A word's operator, or the first word of the next argument.
#[tactic(auto, using(crate::proofs::Bad::bad_is))]
fn spelled(next: bool, bs: &[u8]) -> Result<Found<'_>, Fault>
    ensures { MatchResult result (λ r. spelled_of next bs.now (name_at_of bs.now) ≡ Ok (found_of r)) (λ f. spelled_of next bs.now (name_at_of bs.now) ≡ Err f) }
{
    match name_at(bs) {
        None => Ok(Found::Nothing),
        Some((x, rest)) => match word_operator(x) {
            Some(operator) => Ok(Found::One(operator, rest)),
            None => {
                if next && is_operand_word(x) {
                    Ok(Found::Nothing)
                } else {
                    Err(bad_operator(next, bs))
                }
            }
        },
    }
}

// A sign that an equals sign may follow.
fn or_equal(bare: Operator, equal: Operator, bs: &[u8]) -> Found<'_>
    ensures { Ok (found_of result) ≡ or_equal_of (op_of bare) (op_of equal) (taken_of 61 bs.now) }
{
    match bs {
        [b'=', rest @ ..] => Found::One(equal, rest),
        _ => Found::One(bare, bs),
    }
}

#[tactic(auto, using(crate::proofs::Bad::bad_is))]
fn operator_at(next: bool, bs: &[u8]) -> Result<Found<'_>, Fault>
    ensures { MatchResult result (λ r. operator_at_of next bs.now ≡ Ok (found_of r)) (λ f. operator_at_of next bs.now ≡ Err f) }
{
    match bs {
        [b'|', rest @ ..] => doubled(Operator::Or, b'|', rest),
        [b'&', rest @ ..] => doubled(Operator::And, b'&', rest),
        [b'=', rest @ ..] => doubled(Operator::Equal, b'=', rest),
        [b'!', b'=', rest @ ..] => Ok(Found::One(Operator::Unequal, rest)),
        [b'!', rest @ ..] => {
            if next {
                Ok(Found::Nothing)
            } else {
                Err(bad(rest))
            }
        }
        [b'<', rest @ ..] => Ok(or_equal(Operator::Less, Operator::AtMost, rest)),
        [b'>', rest @ ..] => Ok(or_equal(Operator::Greater, Operator::AtLeast, rest)),
        [b'+', rest @ ..] => Ok(Found::One(Operator::Plus, rest)),
        [b'-', rest @ ..] => Ok(Found::One(Operator::Minus, rest)),
        [b'*', rest @ ..] => Ok(Found::One(Operator::Times, rest)),
        [b'/', rest @ ..] => Ok(Found::One(Operator::Divided, rest)),
        [b'%', rest @ ..] => Ok(Found::One(Operator::Remainder, rest)),
        [b, ..] if is_letter(*b) => spelled(next, bs),
        _ => Ok(Found::Nothing),
    }
}

fn ends_argument(how: How, bs: &[u8]) -> bool
    ensures { result ≡ ends_argument_of (how_of how) bs.now }
{
    match (how, bs) {
        (How::Argument, [b, ..]) => is_white(*b),
        _ => false,
    }
}

/// The binary operator behind an operand, after white space.
pub fn next_operator(how: How, bs: &[u8]) -> Result<Found<'_>, Fault>
    ensures { MatchResult result (λ r. operator_of (how_of how) bs.now ≡ Ok (found_of r)) (λ f. operator_of (how_of how) bs.now ≡ Err f) }
{
    operator_at(ends_argument(how, bs), white(bs))
}
