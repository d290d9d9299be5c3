// How large a number is, by its source text, and how it compares with a whole bound.
ghost use Rattle.std.specs.Prelude.{◌≡◌, ◌<◌, ◌%◌, ◌==◌, unsigned_abs};
ghost use Rattle.json_subset.specs.Tree as tree;
ghost use Rattle.json_values.specs.Amounts as says;

use crate::amount::Amount;
use json_subset::{NumberParts, signed_whole};
use std::cmp::Ordering;

fn some_digit(bytes: &[u8]) -> bool
    ensures { result ≡ says.some_digit bytes.now }
{
    for b in bytes {
        if *b > b'0' {
            return true;
        }
    }
    false
}

// The amount beside a whole part.
fn beside(negative: bool, fraction: bool, z: i64) -> Amount
    ensures { result ≡ says.beside negative fraction (tree.whole z) }
{
    if !fraction {
        Amount::At(z)
    } else if negative {
        Amount::Below(z)
    } else {
        Amount::Above(z)
    }
}

/// How large a number with a fraction and no exponent is, by its source.
pub(crate) fn decimal_amount(source: &[u8]) -> Amount
    ensures { result ≡ says.decimal_amount source.now }
{
    let parts = NumberParts::of(source);
    match signed_whole(parts.negative, parts.digits) {
        Some(z) => beside(parts.negative, some_digit(parts.rest), z),
        None => Amount::Unknown,
    }
}

/// Whether a number is at least the bound, or above it where that is sharp. A wide number is not.
pub fn at_least(bound: i64, sharp: bool, amount: Amount) -> bool
    ensures { result ≡ says.at_least bound sharp amount }
{
    match amount {
        Amount::At(z) => match z.cmp(&bound) {
            Ordering::Less => false,
            Ordering::Equal => !sharp,
            Ordering::Greater => true,
        },
        Amount::Above(z) => match z.cmp(&bound) {
            Ordering::Less => false,
            Ordering::Equal => true,
            Ordering::Greater => true,
        },
        Amount::Below(z) => match z.cmp(&bound) {
            Ordering::Less => false,
            Ordering::Equal => false,
            Ordering::Greater => true,
        },
        Amount::Unknown => false,
    }
}

/// Whether a number is at most the bound, or below it where that is sharp. A wide number is not.
pub fn at_most(bound: i64, sharp: bool, amount: Amount) -> bool
    ensures { result ≡ says.at_most bound sharp amount }
{
    match amount {
        Amount::At(z) => match z.cmp(&bound) {
            Ordering::Less => true,
            Ordering::Equal => !sharp,
            Ordering::Greater => false,
        },
        Amount::Above(z) => match z.cmp(&bound) {
            Ordering::Less => true,
            Ordering::Equal => false,
            Ordering::Greater => false,
        },
        Amount::Below(z) => match z.cmp(&bound) {
            Ordering::Less => true,
            Ordering::Equal => true,
            Ordering::Greater => false,
        },
        Amount::Unknown => false,
    }
}

/// Whether a whole number is a multiple of this number, which is above 0.
pub fn is_multiple(z: i64, of: u64) -> bool
    requires { 0 < of }
    ensures { result ≡ (unsigned_abs z % of == 0) }
{
    z.unsigned_abs() % of == 0
}
