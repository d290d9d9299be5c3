// Bytes, white space and identifiers.
ghost use Rattle.std.specs.Prelude.{◌≡◌, ◌≢◌, ◌≤◌, ◌<◌, ◌∷◌, ℕ, List, length, take, drop, codes, IfSome, MatchOption, MatchResult, Some, None, Ok, Err};
ghost use Rattle.vtl_grammar.specs.Bytes.{is_letter as is_letter_of, is_digit as is_digit_of, is_name as is_name_of, is_blank as is_blank_of, is_white as is_white_of, white as white_of, blanks as blanks_of, front_len, name_at as name_at_of, taken as taken_of, common as common_of, until_byte as until_byte_of, until_word as until_word_of, after as after_of, whole_word as whole_word_of};
ghost use Rattle.vtl_grammar.specs.Faults.{expect as expect_of};
ghost use Rattle.vtl_words.specs.Views.{bad_at};

use vtl_grammar::Fault;

pub fn is_letter(b: u8) -> bool
    ensures { result ≡ is_letter_of b }
{
    b.is_ascii_uppercase() || b.is_ascii_lowercase()
}

pub fn is_digit(b: u8) -> bool
    ensures { result ≡ is_digit_of b }
{
    b.is_ascii_digit()
}

fn is_name(b: u8) -> bool
    ensures { result ≡ is_name_of b }
{
    is_letter(b) || is_digit(b) || b == b'-' || b == b'_'
}

/// Whether it is a space or a tab.
pub fn is_blank(b: u8) -> bool
    ensures { result ≡ is_blank_of b }
{
    b == b' ' || b == b'\t'
}

/// Whether it is a space, a tab, a line feed or a carriage return.
pub fn is_white(b: u8) -> bool
    ensures { result ≡ is_white_of b }
{
    is_blank(b) || b == b'\n' || b == b'\r'
}

/// What follows the white space.
pub fn white(bs: &[u8]) -> &[u8]
    ensures { result.now ≡ white_of bs.now }
{
    let mut rest = bs;
    while let [b, more @ ..] = rest {
        if !is_white(*b) {
            return rest;
        }
        rest = more;
    }
    rest
}

/// What follows the blanks.
pub fn blanks(bs: &[u8]) -> &[u8]
    ensures { result.now ≡ blanks_of bs.now }
{
    let mut rest = bs;
    while let [b, more @ ..] = rest {
        if !is_blank(*b) {
            return rest;
        }
        rest = more;
    }
    rest
}

fn name_len(bs: &[u8]) -> usize
    ensures value { result ≡ front_len is_name_of bs.now }
    ensures within { result ≤ length bs.now }
{
    let mut n = 0;
    while n < bs.len() && is_name(bs[n]) {
        n += 1;
    }
    n
}

/// The identifier at the front, and what follows it.
pub fn name_at(bs: &[u8]) -> Option<(&[u8], &[u8])>
    ensures value { MatchOption result (name_at_of bs.now ≡ None) (λ p. name_at_of bs.now ≡ Some (p.0.now, p.1.now)) }
    ensures within { IfSome result (λ p. length p.0.now ≤ length bs.now) }
{
    match bs {
        [b, ..] if is_letter(*b) => {
            let n = name_len(bs);
            Some((&bs[..n], &bs[n..]))
        }
        _ => None,
    }
}

/// What follows a word that stands here as a whole identifier.
pub fn whole_word<'a>(word: &[u8], bs: &'a [u8]) -> Option<&'a [u8]>
    ensures { MatchOption result (whole_word_of word.now bs.now ≡ None) (λ r. whole_word_of word.now bs.now ≡ Some r.now) }
{
    match name_at(bs) {
        Some((x, rest)) if x == word => Some(rest),
        _ => None,
    }
}

/// What follows this byte, where it stands at the front.
pub fn behind(c: u8, bs: &[u8]) -> Option<&[u8]>
    ensures { MatchOption result ((r : List ℕ) → bs.now ≢ c ∷ r) (λ rest. bs.now ≡ c ∷ rest.now) }
{
    match bs {
        [b, rest @ ..] if *b == c => Some(rest),
        _ => None,
    }
}

/// Whether this byte stands at the front, and what follows it, or else all.
pub fn taken(c: u8, bs: &[u8]) -> (bool, &[u8])
    ensures { (result.0, result.1.now) ≡ taken_of c bs.now }
{
    match bs {
        [b, rest @ ..] if *b == c => (true, rest),
        _ => (false, bs),
    }
}

/// What follows the word at the front.
pub fn after<'a>(word: &[u8], bs: &'a [u8]) -> Option<&'a [u8]>
    ensures { MatchOption result (after_of word.now bs.now ≡ None) (λ r. after_of word.now bs.now ≡ Some r.now) }
{
    let mut left = word;
    let mut rest = bs;
    while let [c, more @ ..] = left {
        match rest {
            [b, behind @ ..] if *b == *c => {
                left = more;
                rest = behind;
            }
            _ => return None,
        }
    }
    Some(rest)
}

/// What stands before the first such byte, and what follows it.
pub fn until_byte(c: u8, bs: &[u8]) -> Option<(&[u8], &[u8])>
    ensures value { MatchOption result (until_byte_of c bs.now ≡ None) (λ p. until_byte_of c bs.now ≡ Some (p.0.now, p.1.now)) }
    ensures within { IfSome result (λ p. length p.0.now ≤ length bs.now) }
{
    let mut n = 0;
    while n < bs.len() {
        if bs[n] == c {
            return Some((&bs[..n], &bs[n + 1..]));
        }
        n += 1;
    }
    None
}

/// What stands before the first such word, and what follows it.
pub fn until_word<'a>(word: &[u8], bs: &'a [u8]) -> Option<(&'a [u8], &'a [u8])>
    ensures { MatchOption result (until_word_of word.now bs.now ≡ None) (λ p. until_word_of word.now bs.now ≡ Some (p.0.now, p.1.now)) }
{
    let mut n = 0;
    while n < bs.len() {
        if let Some(rest) = after(word, &bs[n..]) {
            return Some((&bs[..n], rest));
        }
        n += 1;
    }
    None
}

/// How many bytes of the text go alike with the word.
pub fn common(word: &[u8], bs: &[u8]) -> usize
    ensures value { result ≡ common_of word.now bs.now }
    ensures within { result ≤ length bs.now }
{
    let mut n = 0;
    let mut left = word;
    let mut rest = bs;
    while let [c, more @ ..] = left {
        match rest {
            [b, behind @ ..] if *b == *c => {
                n += 1;
                left = more;
                rest = behind;
            }
            _ => return n,
        }
    }
    n
}

/// The fault where nothing goes on with the byte at the front.
pub fn bad(bs: &[u8]) -> Fault
    ensures { result ≡ bad_at bs.now }
{
    if bs.is_empty() {
        Fault::Unclosed(0)
    } else {
        Fault::BadExpression(bs.len())
    }
}

/// What follows this byte, which has to stand here.
pub fn expect(c: u8, bs: &[u8]) -> Result<&[u8], Fault>
    ensures { MatchResult result (λ rest. expect_of c bs.now ≡ Ok rest.now) (λ f. expect_of c bs.now ≡ Err f) }
{
    match bs {
        [b, rest @ ..] if *b == c => Ok(rest),
        _ => Err(bad(bs)),
    }
}
