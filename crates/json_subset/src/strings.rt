// The text of a string (RFC 8259, section 7).
ghost use Rattle.std.specs.Prelude.{◌≡◌, ◌+◌, ◌-◌, ◌*◌, ◌≤◌, ◌<◌, length, take, drop, ◌++◌, true, false, IfOk};
ghost use Rattle.std.specs.Char.{IsScalar};
ghost use Rattle.std.specs.Char.{encode_utf8};
ghost use Rattle.std.specs.Str.{IsUtf8};
ghost use Rattle.std.specs.String.{string_bytes};
ghost use Rattle.json_subset.specs.Strings as says;
ghost use Rattle.json_subset.specs.Views.{Gives, step_of};

use crate::fault::JsonFault;
use crate::scan::{is_digit, place, word};
use std::alloc::{AllocError, Global};

/// One step of a string behind plain bytes: its closing quote, or what an escape adds to the text.
#[derive(Drop)]
pub enum Step<'a> {
    Closed(&'a [u8]),
    Byte(u8, &'a [u8]),
    Char(char, &'a [u8]),
}

fn is_plain(b: u8) -> bool
    ensures { result ≡ says.is_plain b }
{
    b >= 32 && b != b'"' && b != b'\\'
}

// How many plain bytes stand at the front.
fn run_len(bytes: &[u8]) -> usize
    ensures run { take result bytes.now ≡ says.run bytes.now }
    ensures behind { drop result bytes.now ≡ says.past_run bytes.now }
    ensures within { result ≤ length bytes.now }
{
    let mut count = 0;
    while count < bytes.len() && is_plain(bytes[count]) {
        count += 1;
    }
    count
}

// The plain bytes at the front, and what follows them.
fn split_run(bytes: &[u8]) -> (&[u8], &[u8])
    ensures run { result.0.now ≡ says.run bytes.now }
    ensures behind { result.1.now ≡ says.past_run bytes.now }
{
    bytes.split_at(run_len(bytes))
}

// The value of a hexadecimal digit.
fn hex(b: u8) -> Option<u32>
    ensures { result ≡ says.hex b }
{
    if is_digit(b) {
        Some(u32::from(b) - 48)
    } else if b >= b'a' && b <= b'f' {
        Some(u32::from(b) - 87)
    } else if b >= b'A' && b <= b'F' {
        Some(u32::from(b) - 55)
    } else {
        None
    }
}

// A hexadecimal digit of a value from low to high.
fn hex_digit(n: usize, low: u32, high: u32, bytes: &[u8]) -> Result<(u32, &[u8]), JsonFault>
    ensures gives { Gives (λ p. (p.0, p.1.now)) result (says.hex_digit n low high bytes.now) }
    ensures low { IfOk result (λ p. low ≤ p.0) }
    ensures high { IfOk result (λ p. p.0 ≤ high) }
{
    match bytes {
        [] => Err(JsonFault::Syntax(n)),
        [b, rest @ ..] => match hex(*b) {
            Some(v) if low <= v && v <= high => Ok((v, rest)),
            _ => Err(JsonFault::Syntax(place(n, bytes))),
        },
    }
}

// The last two of four hexadecimal digits.
fn unit_end(n: usize, a: u32, b: u32, bytes: &[u8]) -> Result<(u32, &[u8]), JsonFault>
    requires first { a < 16 }
    requires second { b < 16 }
    ensures gives { Gives (λ p. (p.0, p.1.now)) result (says.unit_end n a b bytes.now) }
    ensures low { IfOk result (λ p. a * 4096 + b * 256 ≤ p.0) }
    ensures high { IfOk result (λ p. p.0 ≤ a * 4096 + b * 256 + 255) }
{
    let (c, rest) = hex_digit(n, 0, 15, bytes)?;
    let (d, rest) = hex_digit(n, 0, 15, rest)?;
    Ok((a * 4096 + b * 256 + c * 16 + d, rest))
}

// A high surrogate, or a unit that is no surrogate.
fn first_unit(n: usize, bytes: &[u8]) -> Result<(u32, &[u8]), JsonFault>
    ensures gives { Gives (λ p. (p.0, p.1.now)) result (says.first_unit n bytes.now) }
    ensures high_or_scalar { IfOk result (λ p. says.is_high p.0 ≡ false → IsScalar p.0) }
{
    let (a, rest) = hex_digit(n, 0, 15, bytes)?;
    let (b, rest) = hex_digit(n, 0, if a == 13 { 11 } else { 15 }, rest)?;
    unit_end(n, a, b, rest)
}

// A low surrogate.
fn low_unit(n: usize, bytes: &[u8]) -> Result<(u32, &[u8]), JsonFault>
    ensures gives { Gives (λ p. (p.0, p.1.now)) result (says.low_unit n bytes.now) }
    ensures low { IfOk result (λ p. 56320 ≤ p.0) }
    ensures high { IfOk result (λ p. p.0 ≤ 57343) }
{
    let (a, rest) = hex_digit(n, 13, 13, bytes)?;
    let (b, rest) = hex_digit(n, 12, 15, rest)?;
    unit_end(n, a, b, rest)
}

fn is_high(unit: u32) -> bool
    ensures { result ≡ says.is_high unit }
{
    0xD800 <= unit && unit <= 0xDBFF
}

// The step of this character.
fn char_step(code: u32, rest: &[u8]) -> Step<'_>
    requires { IsScalar code }
    ensures { step_of result ≡ says.adds (encode_utf8 code) rest.now }
{
    match char::from_u32(code) {
        Some(c) => Step::Char(c, rest),
        None => unreachable!(),
    }
}

// Behind a high surrogate: its other half.
fn second_half(n: usize, high: u32, bytes: &[u8]) -> Result<Step<'_>, JsonFault>
    requires { says.is_high high ≡ true }
    ensures { Gives step_of result (says.second_half n high bytes.now) }
{
    let rest = word(n, b"\\u", bytes)?;
    let (low, rest) = low_unit(n, rest)?;
    Ok(char_step(0x1_0000 + (high - 0xD800) * 1024 + (low - 0xDC00), rest))
}

// Behind a backslash and `u`.
fn unicode(n: usize, bytes: &[u8]) -> Result<Step<'_>, JsonFault>
    ensures { Gives step_of result (says.unicode n bytes.now) }
{
    let (unit, rest) = first_unit(n, bytes)?;
    if is_high(unit) {
        second_half(n, unit, rest)
    } else {
        Ok(char_step(unit, rest))
    }
}

// The byte that a short escape stands for.
fn short(b: u8) -> Option<u8>
    ensures { result ≡ says.short b }
{
    match b {
        b'"' | b'\\' | b'/' => Some(b),
        b'b' => Some(8),
        b'f' => Some(12),
        b'n' => Some(10),
        b'r' => Some(13),
        b't' => Some(9),
        _ => None,
    }
}

// Behind a backslash.
fn escape(n: usize, bytes: &[u8]) -> Result<Step<'_>, JsonFault>
    ensures { Gives step_of result (says.escape n bytes.now) }
{
    match bytes {
        [] => Err(JsonFault::Syntax(n)),
        [b'u', rest @ ..] => unicode(n, rest),
        [b, rest @ ..] => match short(*b) {
            Some(c) => Ok(Step::Byte(c, rest)),
            None => Err(JsonFault::Syntax(place(n, bytes))),
        },
    }
}

// Behind plain bytes.
fn at_stop(n: usize, bytes: &[u8]) -> Result<Step<'_>, JsonFault>
    ensures { Gives step_of result (says.at_stop n bytes.now) }
{
    match bytes {
        [] => Err(JsonFault::Syntax(n)),
        [b'"', rest @ ..] => Ok(Step::Closed(rest)),
        [b'\\', rest @ ..] => escape(n, rest),
        _ => Err(JsonFault::Syntax(place(n, bytes))),
    }
}

// The text behind an opening quote, as bytes.
fn read_text(alloc: Global, n: usize, bytes: &[u8]) -> Result<(Vec<u8>, &[u8]), JsonFault>
    ensures { Gives (λ p. (p.0.items, p.1.now)) result (says.string n bytes.now) }
{
    let mut text = Vec::new(alloc);
    let mut rest = bytes;
    let mut left = bytes.len() + 1;
    while left > 0 {
        left -= 1;
        let (plain, stop) = split_run(rest);
        text.extend_from_slice(plain)?;
        let step = at_stop(n, stop)?;
        match step {
            Step::Closed(more) => return Ok((text, more)),
            Step::Byte(b, more) => {
                text.push(b)?;
                rest = more;
            }
            Step::Char(c, more) => {
                push_char(&mut text, c)?;
                rest = more;
            }
        }
    }
    Err(JsonFault::Syntax(place(n, rest)))
}

// One more character.
fn push_char(text: &mut Vec<u8>, c: char) -> Result<(), AllocError>
    ensures { IfOk result (λ _. text.new.items ≡ text.old.items ++ encode_utf8 c) }
{
    let mut space = [0; 4];
    let encoded = c.encode_utf8(&mut space);
    text.extend_from_slice(encoded.as_bytes())?;
    Ok(())
}

/// The text behind an opening quote.
pub fn read_string(alloc: Global, n: usize, bytes: &[u8]) -> Result<(String, &[u8]), JsonFault>
    requires { IsUtf8 bytes.now }
    ensures { Gives (λ p. (string_bytes p.0, p.1.now)) result (says.string n bytes.now) }
{
    let (text, rest) = read_text(alloc, n, bytes)?;
    match String::from_utf8(text) {
        Ok(text) => Ok((text, rest)),
        Err(_) => unreachable!(),
    }
}
