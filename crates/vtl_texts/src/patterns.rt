// What a pattern and a replacement stand for.
ghost use Rattle.std.specs.Prelude.{◌≡◌, ◌<◌, false, length, IfOk, IfSome};
ghost use Rattle.std.specs.Option.{option_map};
ghost use Rattle.std.specs.String.{string_bytes};
ghost use Rattle.std.specs.Str.{chars, encode_utf8_all};
ghost use Rattle.vtl_texts.specs.Patterns.{is_escapable, is_refused, unescaped, literal_of, replacement_of};

use gw_base::Memory;
use std::alloc::Global;

/// Where a `\` is read.
#[derive(Clone, Copy)]
pub(crate) enum Escapes {
    /// In a pattern: it stands before ASCII punctuation.
    Pattern,
    /// In a replacement: it stands before any character.
    Replacement,
}

/// The text that a pattern stands for; none where it is more than a text, or empty.
pub fn literal(alloc: Global, pattern: &str) -> Result<Option<String>, Memory>
    ensures value { IfOk result (λ made. option_map string_bytes made ≡ literal_of pattern.now) }
    ensures some { IfOk result (λ made. IfSome made (λ text. 0 < length (string_bytes text))) }
{
    if pattern.is_empty() {
        return Ok(None);
    }
    plain(alloc, pattern, Escapes::Pattern)
}

/// The text that a replacement stands for; none where it has a `$`, or a `\` is its last character.
pub fn replacement(alloc: Global, text: &str) -> Result<Option<String>, Memory>
    ensures { IfOk result (λ made. option_map string_bytes made ≡ replacement_of text.now) }
{
    plain(alloc, text, Escapes::Replacement)
}

fn may_be_escaped(escapes: Escapes, c: char) -> bool
    ensures { result ≡ is_escapable escapes c }
{
    match escapes {
        Escapes::Pattern => c.is_ascii_punctuation(),
        Escapes::Replacement => true,
    }
}

fn must_be_escaped(escapes: Escapes, c: char) -> bool
    ensures { result ≡ is_refused escapes c }
{
    match escapes {
        Escapes::Pattern => matches!(
            c,
            '.' | '^' | '$' | '*' | '+' | '?' | '(' | ')' | '[' | ']' | '{' | '}' | '|'
        ),
        Escapes::Replacement => c == '$',
    }
}

fn plain(alloc: Global, text: &str, escapes: Escapes) -> Result<Option<String>, Memory>
    ensures { IfOk result (λ made. option_map string_bytes made ≡ option_map encode_utf8_all (unescaped escapes false (chars text.now))) }
{
    let mut made = String::with_capacity(alloc, text.len())?;
    let mut rest = text.chars();
    let mut escaped = false;
    while let Some(c) = rest.next() {
        if escaped {
            if !may_be_escaped(escapes, c) {
                return Ok(None);
            }
            made.push(c)?;
            escaped = false;
        } else if c == '\\' {
            escaped = true;
        } else {
            if must_be_escaped(escapes, c) {
                return Ok(None);
            }
            made.push(c)?;
        }
    }
    if escaped {
        return Ok(None);
    }
    Ok(Some(made))
}
