// The words behind a `#`.
ghost use Rattle.std.specs.Prelude.{◌≡◌, ◌≤◌, length, drop, IfSome, MatchOption, Some, None};
ghost use Rattle.vtl_grammar.specs.Bytes.{name_at as name_at_of, taken as taken_of, until_byte as until_byte_of};
ghost use Rattle.vtl_grammar.specs.Words.{keyword as keyword_of, word_of as word_of_spec, before_hyphen as before_hyphen_of, bare_word as bare_word_of, braced_word as braced_word_of, word_at as word_at_of};
ghost use Rattle.vtl_words.specs.Views.{word_of, words_option};

use crate::bytes::{name_at, until_byte};
use crate::names::Names;

/// A directive's word, or the name of a macro.
#[derive(Clone, Copy, Debug)]
pub enum Word<'a> {
    Set,
    If,
    ElseIf,
    Else,
    End,
    ForEach,
    Break,
    Stop,
    /// `#macro`.
    Define,
    /// `#parse`, `#include`, `#evaluate` and `#define`, which no template may have.
    Refused,
    /// A call of the macro of this name.
    Macro(&'a [u8]),
}

fn keyword<'a>(name: &[u8]) -> Option<Word<'a>>
    ensures { words_option result ≡ keyword_of name.now }
{
    if name == b"set".as_slice() {
        Some(Word::Set)
    } else if name == b"if".as_slice() {
        Some(Word::If)
    } else if name == b"elseif".as_slice() {
        Some(Word::ElseIf)
    } else if name == b"else".as_slice() {
        Some(Word::Else)
    } else if name == b"end".as_slice() {
        Some(Word::End)
    } else if name == b"foreach".as_slice() {
        Some(Word::ForEach)
    } else if name == b"break".as_slice() {
        Some(Word::Break)
    } else if name == b"stop".as_slice() {
        Some(Word::Stop)
    } else if name == b"macro".as_slice() {
        Some(Word::Define)
    } else if name == b"parse".as_slice() {
        Some(Word::Refused)
    } else if name == b"include".as_slice() {
        Some(Word::Refused)
    } else if name == b"evaluate".as_slice() {
        Some(Word::Refused)
    } else if name == b"define".as_slice() {
        Some(Word::Refused)
    } else {
        None
    }
}

// A directive's word, else the name of one of these macros.
fn word_of_name<'a>(names: &Names, name: &'a [u8]) -> Option<Word<'a>>
    ensures { words_option result ≡ word_of_spec names.now name.now }
{
    match keyword(name) {
        Some(word) => Some(word),
        None => {
            if names.contains(name) {
                Some(Word::Macro(name))
            } else {
                None
            }
        }
    }
}

// A directive's word that ends before the first `-` of an identifier.
fn before_hyphen<'a>(name: &[u8], bs: &'a [u8]) -> Option<(Word<'a>, &'a [u8])>
    requires { length name.now ≤ length bs.now }
    ensures { MatchOption result (before_hyphen_of bs.now (until_byte_of 45 name.now) ≡ None) (λ p. before_hyphen_of bs.now (until_byte_of 45 name.now) ≡ Some (word_of p.0, p.1.now)) }
{
    let (front, _) = until_byte(b'-', name)?;
    let word = keyword(front)?;
    Some((word, &bs[front.len()..]))
}

// Without braces.
fn bare_word<'a>(names: &Names, bs: &'a [u8]) -> Option<(Word<'a>, &'a [u8])>
    ensures { MatchOption result (bare_word_of names.now bs.now (name_at_of bs.now) ≡ None) (λ p. bare_word_of names.now bs.now (name_at_of bs.now) ≡ Some (word_of p.0, p.1.now)) }
{
    let (name, rest) = name_at(bs)?;
    match word_of_name(names, name) {
        Some(word) => Some((word, rest)),
        None => before_hyphen(name, bs),
    }
}

// Behind an opening brace.
fn braced_word<'a>(names: &Names, bs: &'a [u8]) -> Option<(Word<'a>, &'a [u8])>
    ensures { MatchOption result (braced_word_of names.now (name_at_of bs.now) ≡ None) (λ p. braced_word_of names.now (name_at_of bs.now) ≡ Some (word_of p.0, p.1.now)) }
{
    let (name, rest) = name_at(bs)?;
    let word = word_of_name(names, name)?;
    match rest {
        [b'}', more @ ..] => Some((word, more)),
        _ => None,
    }
}

/// The directive or the call behind a `#`, and what follows its word, where these are the names of macros.
pub fn word_at<'a>(names: &Names, bs: &'a [u8]) -> Option<(Word<'a>, &'a [u8])>
    ensures { MatchOption result (word_at_of names.now bs.now ≡ None) (λ p. word_at_of names.now bs.now ≡ Some (word_of p.0, p.1.now)) }
{
    match bs {
        [b'{', inside @ ..] => braced_word(names, inside),
        _ => bare_word(names, bs),
    }
}
