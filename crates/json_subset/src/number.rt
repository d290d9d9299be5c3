// What a number is, by its source text (RFC 8259, section 6).
ghost use Rattle.std.specs.Prelude.{◌≡◌, ◌≤◌, length, MatchOption};
ghost use Rattle.json_subset.specs.Numbers as says;
ghost use Rattle.json_subset.specs.Numbers.{whole_digits, behind_digits, whole_or_wide, value_from};
ghost use Rattle.json_subset.specs.Tree as tree;
ghost use Rattle.json_subset.specs.Views.{number_view};

use crate::scan::is_digit;

/// What a number is: whole and of 64 signed bits, a decimal of at most 18 whole digits, or wider.
#[derive(Clone, Copy, Drop)]
pub enum Number {
    Whole(i64),
    Decimal,
    Wide,
}

// How many digits stand at the front.
fn digits_len(bytes: &[u8]) -> usize
    ensures value { result ≡ says.digits_len bytes.now }
    ensures within { result ≤ length bytes.now }
{
    let mut count = 0;
    while count < bytes.len() && is_digit(bytes[count]) {
        count += 1;
    }
    count
}

// The number that the digits spell, where it is below 2^64.
fn magnitude(digits: &[u8]) -> Option<u64>
    ensures { MatchOption result (18446744073709551616 ≤ says.value_from 0 digits.now) (λ m. m ≡ says.value_from 0 digits.now) }
{
    let mut m: u64 = 0;
    for d in digits {
        let tens = match m.checked_mul(10) {
            Some(tens) => tens,
            None => return None,
        };
        m = match tens.checked_add(u64::from(d.saturating_sub(b'0'))) {
            Some(sum) => sum,
            None => return None,
        };
    }
    Some(m)
}

fn has_exponent(bytes: &[u8]) -> bool
    ensures { result ≡ says.has_exponent bytes.now }
{
    for b in bytes {
        if *b == b'e' || *b == b'E' {
            return true;
        }
    }
    false
}

/// The parts of a number's text, in which the fraction and the exponent are not yet told apart.
#[derive(Clone, Copy)]
pub struct NumberParts<'a> {
    /// Whether a minus stands in front.
    pub negative: bool,
    /// The digits of the whole part, without the minus.
    pub digits: &'a [u8],
    /// What follows these digits.
    pub rest: &'a [u8],
}

impl<'a> NumberParts<'a> {
    /// The parts of this text: after a minus, as many digits as stand there, and the rest.
    pub fn of(source: &'a [u8]) -> NumberParts<'a>
        ensures negative { result.negative ≡ says.is_negative source.now }
        ensures digits { result.digits.now ≡ whole_digits source.now }
        ensures rest { result.rest.now ≡ behind_digits source.now }
    {
        let (negative, unsigned) = match source {
            [b'-', unsigned @ ..] => (true, unsigned),
            _ => (false, source),
        };
        let count = digits_len(unsigned);
        NumberParts {
            negative,
            digits: &unsigned[..count],
            rest: &unsigned[count..],
        }
    }
}

/// The number of these digits, negative or not, and `None` where it does not fit 64 signed bits.
pub fn signed_whole(negative: bool, digits: &[u8]) -> Option<i64>
    ensures { MatchOption result (whole_or_wide negative (value_from 0 digits.now) ≡ tree.wide) (λ z. whole_or_wide negative (value_from 0 digits.now) ≡ tree.whole z) }
{
    match magnitude(digits) {
        Some(m) => signed(negative, m),
        None => None,
    }
}

// The number of this distance from 0.
fn signed(negative: bool, m: u64) -> Option<i64>
    ensures { MatchOption result (whole_or_wide negative m ≡ tree.wide) (λ z. whole_or_wide negative m ≡ tree.whole z) }
{
    if negative {
        if m == 0 {
            return Some(0);
        }
        if m <= 9_223_372_036_854_775_808 {
            let below = (m - 1) as i64;
            return Some(-below - 1);
        }
        return None;
    }
    if m < 9_223_372_036_854_775_808 {
        return Some(m as i64);
    }
    None
}

/// What a number is, by its source text.
pub fn number_of(source: &[u8]) -> Number
    ensures { number_view result ≡ says.number_of source.now }
{
    let parts = NumberParts::of(source);
    kind_by(parts.negative, parts.digits, parts.rest)
}

// By the sign, the digits of the whole part, and what follows these.
fn kind_by(negative: bool, digits: &[u8], rest: &[u8]) -> Number
    ensures { number_view result ≡ says.kind_by negative digits.now rest.now }
{
    match rest {
        [] => match signed_whole(negative, digits) {
            Some(z) => Number::Whole(z),
            None => Number::Wide,
        },
        [b, fraction @ ..] => {
            if *b == b'.' && !has_exponent(fraction) && digits.len() <= 18 {
                Number::Decimal
            } else {
                Number::Wide
            }
        }
    }
}
