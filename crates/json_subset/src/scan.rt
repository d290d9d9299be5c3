// What stands at the front of the rest of a document of n bytes.
ghost use Rattle.std.specs.Prelude.{◌≡◌, ◌-◌, ◌≤◌, length, take, drop, None, Some, MatchOption, Ok};
ghost use Rattle.json_subset.specs.Scan as says;
ghost use Rattle.json_subset.specs.Views.{Gives, next_of};

use crate::fault::JsonFault;

/// Behind a part of a list or an object: its closing bracket, or a comma and one more part.
#[derive(Drop)]
pub enum Next<'a> {
    Done(&'a [u8]),
    More(&'a [u8]),
}

/// The place of the front of the rest.
pub fn place(n: usize, rest: &[u8]) -> usize
    ensures { result ≡ n - length rest.now }
{
    n.saturating_sub(rest.len())
}

pub fn is_white(b: u8) -> bool
    ensures { result ≡ says.is_white b }
{
    b == b' ' || b == b'\t' || b == b'\n' || b == b'\r'
}

/// What follows the white space at the front.
pub fn after_white(bytes: &[u8]) -> &[u8]
    ensures { result.now ≡ says.after_white bytes.now }
{
    let mut rest = bytes;
    while let [b, more @ ..] = rest {
        if !is_white(*b) {
            return rest;
        }
        rest = more;
    }
    rest
}

/// What follows this byte, where it stands at the front.
pub fn behind(b: u8, bytes: &[u8]) -> Option<&[u8]>
    ensures { MatchOption result (says.behind b bytes.now ≡ None) (λ rest. says.behind b bytes.now ≡ Some rest.now) }
{
    match bytes {
        [c, rest @ ..] if *c == b => Some(rest),
        _ => None,
    }
}

/// What follows this word, of which each byte must stand.
pub fn word<'a>(n: usize, word: &[u8], bytes: &'a [u8]) -> Result<&'a [u8], JsonFault>
    ensures { Gives (λ rest. rest.now) result (says.word n word.now bytes.now) }
{
    let mut left = word;
    let mut rest = bytes;
    while let [c, others @ ..] = left {
        match rest {
            [] => return Err(JsonFault::Syntax(n)),
            [b, more @ ..] => {
                if b != c {
                    return Err(JsonFault::Syntax(place(n, rest)));
                }
                rest = more;
                left = others;
            }
        }
    }
    Ok(rest)
}

pub fn is_digit(b: u8) -> bool
    ensures { result ≡ says.is_digit b }
{
    b'0' <= b && b <= b'9'
}

fn after_digits(bytes: &[u8]) -> &[u8]
    ensures { result.now ≡ says.after_digits bytes.now }
{
    let mut rest = bytes;
    while let [b, more @ ..] = rest {
        if !is_digit(*b) {
            return rest;
        }
        rest = more;
    }
    rest
}

fn some_digits(n: usize, bytes: &[u8]) -> Result<&[u8], JsonFault>
    ensures { Gives (λ rest. rest.now) result (says.some_digits n bytes.now) }
{
    match bytes {
        [] => Err(JsonFault::Syntax(n)),
        [b, rest @ ..] => {
            if is_digit(*b) {
                Ok(after_digits(rest))
            } else {
                Err(JsonFault::Syntax(place(n, bytes)))
            }
        }
    }
}

fn unsigned(bytes: &[u8]) -> &[u8]
    ensures { result.now ≡ says.unsigned bytes.now }
{
    match bytes {
        [b'-', rest @ ..] => rest,
        _ => bytes,
    }
}

fn whole_part(n: usize, bytes: &[u8]) -> Result<&[u8], JsonFault>
    ensures { Gives (λ rest. rest.now) result (says.whole_part n bytes.now) }
{
    match bytes {
        [] => Err(JsonFault::Syntax(n)),
        [b'0', rest @ ..] => Ok(rest),
        _ => some_digits(n, bytes),
    }
}

fn fraction(n: usize, bytes: &[u8]) -> Result<&[u8], JsonFault>
    ensures { Gives (λ rest. rest.now) result (says.fraction n bytes.now) }
{
    match bytes {
        [b'.', rest @ ..] => some_digits(n, rest),
        _ => Ok(bytes),
    }
}

fn unsigned_exponent(bytes: &[u8]) -> &[u8]
    ensures { result.now ≡ says.unsigned_exponent bytes.now }
{
    match bytes {
        [b'+', rest @ ..] => rest,
        [b'-', rest @ ..] => rest,
        _ => bytes,
    }
}

fn exponent(n: usize, bytes: &[u8]) -> Result<&[u8], JsonFault>
    ensures { Gives (λ rest. rest.now) result (says.exponent n bytes.now) }
{
    match bytes {
        [b'e', rest @ ..] => some_digits(n, unsigned_exponent(rest)),
        [b'E', rest @ ..] => some_digits(n, unsigned_exponent(rest)),
        _ => Ok(bytes),
    }
}

/// What follows a number.
pub fn after_number(n: usize, bytes: &[u8]) -> Result<&[u8], JsonFault>
    ensures { Gives (λ rest. rest.now) result (says.after_number n bytes.now) }
{
    let rest = whole_part(n, unsigned(bytes))?;
    let rest = fraction(n, rest)?;
    exponent(n, rest)
}

/// Behind a part of a list or an object.
pub fn behind_part(n: usize, close: u8, bytes: &[u8]) -> Result<Next<'_>, JsonFault>
    ensures { Gives next_of result (says.next n close bytes.now) }
{
    let front = after_white(bytes);
    match front {
        [] => Err(JsonFault::Syntax(n)),
        [b, rest @ ..] => {
            if *b == close {
                Ok(Next::Done(rest))
            } else if *b == b',' {
                Ok(Next::More(after_white(rest)))
            } else {
                Err(JsonFault::Syntax(place(n, front)))
            }
        }
    }
}

/// Behind a member's name: what follows the colon.
pub fn colon(n: usize, bytes: &[u8]) -> Result<&[u8], JsonFault>
    ensures { Gives (λ rest. rest.now) result (says.colon n bytes.now) }
{
    let front = after_white(bytes);
    match front {
        [] => Err(JsonFault::Syntax(n)),
        [b':', rest @ ..] => Ok(after_white(rest)),
        _ => Err(JsonFault::Syntax(place(n, front))),
    }
}
