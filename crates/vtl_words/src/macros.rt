// The names of a text's macros, found before it is read.
ghost use Rattle.std.specs.Prelude.{◌≡◌, Some, IfOk, codes};
ghost use Rattle.vtl_grammar.specs.Bytes.{after as after_of};
ghost use Rattle.vtl_grammar.specs.Macros.{macro_names as macro_names_of, hash_at as hash_at_of, scan_hash as scan_hash_of, scan_at as scan_at_of, macro_word as macro_word_of, macro_or_braced};
ghost use Rattle.vtl_words.specs.Scans.{IsScanned};

use crate::bytes::{after, blanks, name_at, until_byte, until_word, white};
use crate::fronts::{Hash, hash_at};
use crate::names::Names;
use gw_base::Memory;
use std::alloc::Global;

/// What the scan meets.
#[derive(Drop)]
pub enum Scanned<'a> {
    /// The end.
    Done,
    /// No macro: where the scan goes on.
    Passed(&'a [u8]),
    /// `#macro(` and this name, and where the scan goes on.
    Found(&'a [u8], &'a [u8]),
}

// Behind `macro`: blanks, `(`, white space and a name; or else the scan goes on behind the `#`.
fn named_macro<'a>(bs: &'a [u8], rest: &'a [u8]) -> Scanned<'a>
    ensures { IsScanned result (macro_word_of bs.now (Some rest.now)) }
{
    match blanks(rest) {
        [b'(', inside @ ..] => match name_at(white(inside)) {
            Some((name, _)) => Scanned::Found(name, bs),
            None => Scanned::Passed(bs),
        },
        _ => Scanned::Passed(bs),
    }
}

// A word behind a `#`.
fn scan_word(bs: &[u8]) -> Scanned<'_>
    ensures { IsScanned result (macro_or_braced bs.now (after_of (codes "macro") bs.now)) }
{
    if let Some(rest) = after(b"macro", bs) {
        return named_macro(bs, rest);
    }
    match after(b"{macro}", bs) {
        Some(rest) => named_macro(bs, rest),
        None => Scanned::Passed(bs),
    }
}

// Behind a `#`.
fn scan_hash(bs: &[u8]) -> Scanned<'_>
    ensures { IsScanned result (scan_hash_of (hash_at_of bs.now)) }
{
    let (hash, rest) = hash_at(bs);
    let parted = match hash {
        Hash::Line => until_byte(b'\n', rest),
        Hash::Comment => until_word(b"*#", rest),
        Hash::Raw => until_word(b"]]#", rest),
        Hash::Word => return scan_word(rest),
    };
    match parted {
        Some((_, more)) => Scanned::Passed(more),
        None => Scanned::Passed(&[]),
    }
}

// At the front of what is left.
fn scan_at(bs: &[u8]) -> Scanned<'_>
    ensures { IsScanned result (scan_at_of bs.now) }
{
    match bs {
        [] => Scanned::Done,
        [b'#', rest @ ..] => scan_hash(rest),
        [_b, rest @ ..] => Scanned::Passed(rest),
    }
}

/// The names of a text's macros, in order: each that stands behind `#macro` and a bracket, as a scan finds it that passes
/// over comments and raw text alone.
pub fn macro_names(alloc: Global, bs: &[u8]) -> Result<Names, Memory>
    ensures { IfOk result (λ names. names ≡ macro_names_of bs.now) }
{
    let mut names = Names::new(alloc);
    let mut rest = bs;
    let mut fuel = bs.len() + 1;
    while fuel > 0 {
        fuel -= 1;
        match scan_at(rest) {
            Scanned::Done => return Ok(names),
            Scanned::Found(name, next) => {
                names.push(alloc, name)?;
                rest = next;
            }
            Scanned::Passed(next) => rest = next,
        }
    }
    Ok(names)
}
