// Texts with escapes.
ghost use Rattle.std.specs.Prelude.{◌≡◌, ◌++◌, ◌∷◌, ◌<◌, ◌≤◌, ◌^◌, [], IfOk, OnOk, true, false};
ghost use Rattle.std.specs.Fmt.{digit_glyph};
ghost use Rattle.std.specs.List.{flat_map};
ghost use Rattle.std.specs.Str.{chars};
ghost use Rattle.std.specs.String.{string_bytes};
ghost use Rattle.gateway_vars.specs.Escapes.{hex_digits, unit_escape, script_letter, script_char as script_char_of, script_other, script_text, json_letter, json_char as json_char_of, json_other, json_string as json_string_of};

use gw_base::Memory;
use std::alloc::Global;

/// Writes the last hexadecimal digits of a number, so many.
pub(crate) fn push_digits(
    out: &mut String,
    number: u64,
    count: u32,
    upper: bool,
) -> Result<(), Memory>
    ensures { OnOk result (string_bytes out.new ≡ string_bytes out.old ++ hex_digits upper count number) }
{
    if count == 0 {
        return Ok(());
    }
    push_digits(out, number / 16, count - 1, upper)?;
    out.push(digit(number % 16, upper))?;
    Ok(())
}

fn digit(value: u64, upper: bool) -> char
    requires { value < 16 }
    ensures glyph { result ≡ digit_glyph upper value }
    ensures ascii { result < 128 }
{
    let value = value as u8;
    if value < 10 {
        (48 + value) as char
    } else if upper {
        (55 + value) as char
    } else {
        (87 + value) as char
    }
}

// `\u` and four digits.
fn push_unit(out: &mut String, unit: u16, upper: bool) -> Result<(), Memory>
    ensures { OnOk result (string_bytes out.new ≡ string_bytes out.old ++ unit_escape upper unit) }
{
    out.push_str("\\u")?;
    push_digits(out, unit as u64, 4, upper)
}

// The character behind a backslash, where there is a short form.
fn script_letter(c: char) -> Option<char>
    ensures { result ≡ script_letter c }
{
    match c {
        '"' => Some('"'),
        '\'' => Some('\''),
        '\\' => Some('\\'),
        '/' => Some('/'),
        '\u{8}' => Some('b'),
        '\t' => Some('t'),
        '\n' => Some('n'),
        '\u{c}' => Some('f'),
        '\r' => Some('r'),
        _ => None,
    }
}

fn push_letter(out: &mut String, letter: char) -> Result<(), Memory>
    requires { letter < 128 }
    ensures { OnOk result (string_bytes out.new ≡ string_bytes out.old ++ 92 ∷ letter ∷ []) }
{
    out.push('\\')?;
    out.push(letter)?;
    Ok(())
}

fn push_other(out: &mut String, c: char) -> Result<(), Memory>
    ensures { OnOk result (string_bytes out.new ≡ string_bytes out.old ++ script_other c) }
{
    if ' ' <= c && c <= '\u{7f}' {
        out.push(c)?;
        return Ok(());
    }
    let mut units = [0; 2];
    for unit in c.encode_utf16(&mut units).iter() {
        push_unit(out, *unit, true)?;
    }
    Ok(())
}

#[tactic(auto, unfolding(crate::specs::Escapes::script_char))]
fn push_script(out: &mut String, c: char) -> Result<(), Memory>
    ensures { OnOk result (string_bytes out.new ≡ string_bytes out.old ++ script_char_of c) }
{
    match script_letter(c) {
        Some(letter) => push_letter(out, letter),
        None => push_other(out, c),
    }
}

/// `$util.escapeJavaScript` of a text.
#[tactic(auto, unfolding(crate::specs::Escapes::script_text))]
pub fn escape_java_script(alloc: Global, text: &str) -> Result<String, Memory>
    ensures { IfOk result (λ made. string_bytes made ≡ script_text text.now) }
{
    let mut made = String::new(alloc);
    for c in text.chars() {
        push_script(&mut made, c)?;
    }
    Ok(made)
}

fn json_letter(c: char) -> Option<char>
    ensures { result ≡ json_letter c }
{
    match c {
        '"' => Some('"'),
        '\\' => Some('\\'),
        '\u{8}' => Some('b'),
        '\t' => Some('t'),
        '\n' => Some('n'),
        '\u{c}' => Some('f'),
        '\r' => Some('r'),
        _ => None,
    }
}

fn push_plain(out: &mut String, c: char) -> Result<(), Memory>
    ensures { OnOk result (string_bytes out.new ≡ string_bytes out.old ++ json_other c) }
{
    if ' ' <= c {
        out.push(c)?;
        return Ok(());
    }
    push_unit(out, c as u16, false)
}

#[tactic(auto, unfolding(crate::specs::Escapes::json_char))]
fn push_json(out: &mut String, c: char) -> Result<(), Memory>
    ensures { OnOk result (string_bytes out.new ≡ string_bytes out.old ++ json_char_of c) }
{
    match json_letter(c) {
        Some(letter) => push_letter(out, letter),
        None => push_plain(out, c),
    }
}

/// A text as a JSON string, quotes and all (RFC 8259, section 7).
#[tactic(auto, unfolding(crate::specs::Escapes::json_string))]
pub fn json_string(alloc: Global, text: &str) -> Result<String, Memory>
    ensures { IfOk result (λ made. string_bytes made ≡ json_string_of text.now) }
{
    let mut made = String::from_str(alloc, "\"")?;
    for c in text.chars() {
        push_json(&mut made, c)?;
    }
    made.push('"')?;
    Ok(made)
}
