// A text in another case, and without the blanks at its ends.
ghost use Rattle.std.specs.Prelude.{◌≡◌, IfOk};
ghost use Rattle.std.specs.String.{string_bytes};
ghost use Rattle.vtl_texts.specs.Characters.{upper, lower, trimmed, without_start, without_end};

use gw_base::Memory;
use std::alloc::Global;

/// The text with its ASCII letters in upper case.
#[tactic(auto, unfolding(crate::specs::Characters::upper))]
pub fn upper(alloc: Global, text: &str) -> Result<String, Memory>
    ensures { IfOk result (λ made. string_bytes made ≡ upper text.now) }
{
    let mut made = String::from_str(alloc, text)?;
    made.make_ascii_uppercase();
    Ok(made)
}

/// The text with its ASCII letters in lower case.
#[tactic(auto, unfolding(crate::specs::Characters::lower))]
pub fn lower(alloc: Global, text: &str) -> Result<String, Memory>
    ensures { IfOk result (λ made. string_bytes made ≡ lower text.now) }
{
    let mut made = String::from_str(alloc, text)?;
    made.make_ascii_lowercase();
    Ok(made)
}

fn trim_start(text: &str) -> &str
    ensures { result.now ≡ without_start text.now }
{
    let bytes = text.as_bytes();
    let mut start = 0;
    while start < bytes.len() && bytes[start] <= 32 {
        start += 1;
    }
    let (_, rest) = text.split_at(start);
    rest
}

fn trim_end(text: &str) -> &str
    ensures { result.now ≡ without_end text.now }
{
    let bytes = text.as_bytes();
    let mut end = bytes.len();
    while end > 0 && bytes[end - 1] <= 32 {
        end -= 1;
    }
    let (rest, _) = text.split_at(end);
    rest
}

/// The text without the characters up to 32 at its ends.
#[tactic(auto, unfolding(crate::specs::Characters::trimmed))]
pub fn trim(text: &str) -> &str
    ensures { result.now ≡ trimmed text.now }
{
    trim_end(trim_start(text))
}
