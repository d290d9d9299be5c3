// Whole numbers, and the words `true`, `false` and `not`.
ghost use Rattle.std.specs.Prelude.{◌≡◌, ◌≤◌, ◌<◌, [], ◌∷◌, length, drop, codes, MatchOption, MatchResult, Ok, Err};
ghost use Rattle.vtl_grammar.specs.Bytes.{is_digit as is_digit_of, front_len, furthest as furthest_of, name_at as name_at_of};
ghost use Rattle.vtl_grammar.specs.Numbers.{decimal as decimal_of, most as most_of, signed_whole, dotted as dotted_of, number as number_of, minus_number as minus_number_of, boolean_word as boolean_word_of};
ghost use Rattle.vtl_grammar.specs.Tree as tree;
ghost use Rattle.vtl_words.specs.Views.{how_of, bad_at};

use crate::bytes::{bad, common, is_digit, name_at};
use crate::operators::How;
use vtl_grammar::Fault;

/// The fault of an operand that begins as `not` and is another word.
pub fn bad_not(bs: &[u8]) -> Fault
    ensures { result ≡ bad_at (drop (furthest_of (codes "not" ∷ []) bs.now) bs.now) }
{
    bad(&bs[common(b"not", bs).max(0)..])
}

// The fault of an operand that begins as `true` or `false` and is another word.
fn bad_boolean(bs: &[u8]) -> Fault
    ensures { result ≡ bad_at (drop (furthest_of (codes "true" ∷ codes "false" ∷ []) bs.now) bs.now) }
{
    bad(&bs[common(b"true", bs).max(common(b"false", bs).max(0))..])
}

/// `true` or `false`, as a whole identifier.
#[tactic(auto, using(crate::proofs::Bad::bad_is))]
pub fn boolean(bs: &[u8]) -> Result<(bool, &[u8]), Fault>
    ensures { MatchResult result (λ p. boolean_word_of bs.now (name_at_of bs.now) ≡ Ok (tree.boolean p.0, p.1.now)) (λ f. boolean_word_of bs.now (name_at_of bs.now) ≡ Err f) }
{
    match name_at(bs) {
        None => Err(bad(bs)),
        Some((x, rest)) => {
            if x == b"true".as_slice() {
                Ok((true, rest))
            } else if x == b"false".as_slice() {
                Ok((false, rest))
            } else {
                Err(bad_boolean(bs))
            }
        }
    }
}

fn digit_len(bs: &[u8]) -> usize
    ensures value { result ≡ front_len is_digit_of bs.now }
    ensures within { result ≤ length bs.now }
{
    let mut n = 0;
    while n < bs.len() && is_digit(bs[n]) {
        n += 1;
    }
    n
}

// The number that digits mean, up to 2^63.
#[tactic(auto, using(crate::proofs::Decimals::decimal_least))]
fn decimal(digits: &[u8]) -> Option<u64>
    ensures { MatchOption result (9223372036854775808 < decimal_of 0 digits.now) (λ n. decimal_of 0 digits.now ≡ n × (n ≤ 9223372036854775808)) }
{
    let mut n: u64 = 0;
    let mut rest = digits;
    while let [d, more @ ..] = rest {
        if n > 922337203685477580 {
            return None;
        }
        n = 10 * n + u64::from(d.saturating_sub(48));
        if n > 9223372036854775808 {
            return None;
        }
        rest = more;
    }
    Some(n)
}

fn most(negative: bool) -> u64
    ensures { result ≡ most_of negative }
{
    if negative {
        9223372036854775808
    } else {
        9223372036854775807
    }
}

fn signed(negative: bool, n: u64) -> i64
    requires fits { n ≤ most_of negative }
    ensures { result ≡ signed_whole negative n }
{
    if !negative {
        n as i64
    } else if n == 9223372036854775808 {
        i64::MIN
    } else {
        -(n as i64)
    }
}

// Behind a number's digits a dot may only begin the `..` of a range.
fn dotted(how: How, bs: &[u8]) -> Result<&[u8], Fault>
    ensures { MatchResult result (λ r. dotted_of (how_of how) bs.now ≡ Ok r.now) (λ f. dotted_of (how_of how) bs.now ≡ Err f) }
{
    match (how, bs) {
        (How::Ranging, [46]) => Err(Fault::Unclosed(0)),
        (How::Ranging, [46, 46, ..]) => Ok(bs),
        (How::Ranging, [46, c, more @ ..]) => {
            if is_digit(*c) {
                Err(Fault::BadExpression(more.len() + 2))
            } else {
                Err(Fault::BadExpression(more.len() + 1))
            }
        }
        (How::Alone | How::Argument, [46, more @ ..]) => Err(Fault::BadExpression(more.len() + 1)),
        _ => Ok(bs),
    }
}

/// A number whose first byte is at this place, and whose digits are at the front.
pub fn number(how: How, at: usize, negative: bool, bs: &[u8]) -> Result<(i64, &[u8]), Fault>
    ensures { MatchResult result (λ p. number_of (how_of how) at negative bs.now ≡ Ok (tree.whole p.0, p.1.now)) (λ f. number_of (how_of how) at negative bs.now ≡ Err f) }
{
    let n = digit_len(bs);
    let value = match decimal(&bs[..n]) {
        Some(value) => value,
        None => return Err(Fault::BadExpression(at)),
    };
    if value > most(negative) {
        return Err(Fault::BadExpression(at));
    }
    let rest = match dotted(how, &bs[n..]) {
        Ok(rest) => rest,
        Err(fault) => return Err(fault),
    };
    Ok((signed(negative, value), rest))
}

/// A number behind its `-`.
#[tactic(auto, using(crate::proofs::Bad::bad_is))]
pub fn minus_number(how: How, bs: &[u8]) -> Result<(i64, &[u8]), Fault>
    ensures { MatchResult result (λ p. minus_number_of (how_of how) bs.now ≡ Ok (tree.whole p.0, p.1.now)) (λ f. minus_number_of (how_of how) bs.now ≡ Err f) }
{
    match bs {
        [b, ..] if is_digit(*b) => number(how, bs.len() + 1, true, bs),
        _ => Err(bad(bs)),
    }
}
