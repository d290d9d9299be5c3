// What stands at the front of a text, and at the front of a string's inside.
ghost use Rattle.std.specs.Prelude.{◌≡◌, ◌≤◌, length};
ghost use Rattle.vtl_grammar.specs.Macros.{hash_at as hash_at_of};
ghost use Rattle.vtl_grammar.specs.Strings.{escapes as escapes_of, piece_of, run_len as run_len_of};
ghost use Rattle.vtl_grammar.specs.Fronts.{front_at as front_at_of, hash as hash_of};
ghost use Rattle.vtl_words.specs.Fronts.{hash_view, front_view, piece_view, is_byte};

use crate::bytes::{after, until_byte, until_word};
use crate::names::Names;
use crate::references::{Begun, begun_at};
use crate::words::{Word, word_at};
use vtl_grammar::Fault;

/// What the bytes behind a `#` begin.
#[derive(Clone, Copy, Debug, PartialEq, Eq)]
pub enum Hash {
    /// `##`.
    Line,
    /// `#*`.
    Comment,
    /// `#[[`.
    Raw,
    /// Anything else.
    Word,
}

/// What stands at the front of a text.
#[derive(Drop)]
pub enum Front<'a> {
    /// Nothing: the end.
    Finish,
    /// A byte of text.
    Plain(u8, &'a [u8]),
    /// Raw text, and what follows it.
    Raw(&'a [u8], &'a [u8]),
    /// A comment or raw text that is not closed.
    Unclosed,
    /// A `\` before `$` or `#`.
    Escape,
    /// A reference: its name, and what follows the name.
    Reference {
        quiet: bool,
        braced: bool,
        name: &'a [u8],
        rest: &'a [u8],
    },
    /// What follows a comment to the end of the line.
    LineComment(&'a [u8]),
    /// What follows a comment.
    LongComment(&'a [u8]),
    /// A directive or a call, and what follows its word.
    Directive(Word<'a>, &'a [u8]),
}

/// What stands at the front of a double-quoted string's inside.
#[derive(Drop)]
pub enum Piece<'a> {
    /// Nothing: the end.
    End,
    /// A byte of text.
    Byte,
    /// A reference: its name, and what follows the name.
    Reference {
        quiet: bool,
        braced: bool,
        name: &'a [u8],
        rest: &'a [u8],
    },
    /// What cannot stand there.
    Bad(Fault),
}

/// What the bytes behind a `#` begin, and what follows its sign.
pub fn hash_at(bs: &[u8]) -> (Hash, &[u8])
    ensures { (hash_view result.0, result.1.now) ≡ hash_at_of bs.now }
{
    if let Some(rest) = after(b"#", bs) {
        return (Hash::Line, rest);
    }
    if let Some(rest) = after(b"*", bs) {
        return (Hash::Comment, rest);
    }
    if let Some(rest) = after(b"[[", bs) {
        return (Hash::Raw, rest);
    }
    (Hash::Word, bs)
}

/// Whether `$` or `#` stands here, which a `\` may not stand before.
pub fn escapes(bs: &[u8]) -> bool
    ensures { result ≡ escapes_of bs.now }
{
    matches!(bs, [b'$' | b'#', ..])
}

// What a `#` before these bytes begins.
fn front_behind_hash<'a>(names: &Names, bs: &'a [u8]) -> Front<'a>
    ensures { front_view result ≡ hash_of names.now (hash_at_of bs.now) }
{
    let (hash, rest) = hash_at(bs);
    match hash {
        Hash::Line => match until_byte(b'\n', rest) {
            Some((_, more)) => Front::LineComment(more),
            None => Front::LineComment(&[]),
        },
        Hash::Comment => match until_word(b"*#", rest) {
            Some((_, more)) => Front::LongComment(more),
            None => Front::Unclosed,
        },
        Hash::Raw => match until_word(b"]]#", rest) {
            Some((raw, more)) => Front::Raw(raw, more),
            None => Front::Unclosed,
        },
        Hash::Word => match word_at(names, rest) {
            Some((word, more)) => Front::Directive(word, more),
            None => Front::Plain(b'#', rest),
        },
    }
}

/// What stands at the front of a text whose macros have these names.
#[tactic(auto, unfolding(vtl_grammar::specs::Fronts::front_at))]
pub fn front_at<'a>(names: &Names, bs: &'a [u8]) -> Front<'a>
    ensures { front_view result ≡ front_at_of names.now bs.now }
{
    match bs {
        [] => Front::Finish,
        [b'$', rest @ ..] => match begun_at(rest) {
            Begun::Reference {
                quiet,
                braced,
                name,
                rest,
            } => Front::Reference {
                quiet,
                braced,
                name,
                rest,
            },
            Begun::Nameless(_) => Front::Plain(b'$', rest),
        },
        [b'#', rest @ ..] => front_behind_hash(names, rest),
        [b, rest @ ..] => {
            if *b == b'\\' && escapes(rest) {
                Front::Escape
            } else {
                Front::Plain(*b, rest)
            }
        }
    }
}

/// What stands at the front of a double-quoted string's inside.
pub fn piece_at<'a>(names: &Names, bs: &'a [u8]) -> Piece<'a>
    ensures { piece_view result ≡ piece_of names.now bs.now }
{
    match bs {
        [] => Piece::End,
        [b'$', rest @ ..] => match begun_at(rest) {
            Begun::Reference {
                quiet,
                braced,
                name,
                rest,
            } => Piece::Reference {
                quiet,
                braced,
                name,
                rest,
            },
            Begun::Nameless(_) => Piece::Byte,
        },
        [b, rest @ ..] => {
            if *b == b'\\' && escapes(rest) {
                Piece::Bad(Fault::Escape(bs.len()))
            } else if *b == b'#' && word_at(names, rest).is_some() {
                Piece::Bad(Fault::BadDirective(bs.len()))
            } else {
                Piece::Byte
            }
        }
    }
}

fn is_text(piece: &Piece<'_>) -> bool
    ensures { result ≡ is_byte piece.now }
{
    matches!(piece, Piece::Byte)
}

/// How many bytes of text stand at the front of a double-quoted string's inside.
pub fn run_len(names: &Names, bs: &[u8]) -> usize
    ensures value { result ≡ run_len_of names.now bs.now }
    ensures within { result ≤ length bs.now }
{
    let mut n = 0;
    while n < bs.len() && is_text(&piece_at(names, &bs[n..])) {
        n += 1;
    }
    n
}
