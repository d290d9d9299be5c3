// What stands where in a text.
ghost use Rattle.std.specs.Prelude.{◌≡◌, ◌<◌, IfOk};
ghost use Rattle.std.specs.Option.{option_map};
ghost use Rattle.resource_tree.specs.Reading.{before_last as before_last_of};
ghost use Rattle.vtl_texts.specs.Places.{behind as behind_of, cut};

use gw_base::{Memory, Text};
use std::alloc::Global;

/// What stands before the first of these bytes, and what behind it.
pub(crate) fn split_once<'a>(text: &'a str, part: &str) -> Option<(&'a str, &'a str)>
    ensures { option_map (λ c. (c.0.now, c.1.now)) result ≡ cut text.now part.now }
{
    text.split_once(part)
}

/// What stands behind the front of a text, where it begins with that.
#[tactic(auto, using(crate::proofs::Cuts::no_front, crate::proofs::Cuts::some_front, crate::proofs::Cuts::none_front))]
pub(crate) fn behind<'a>(text: &'a str, front: &str) -> Option<&'a str>
    ensures { option_map (λ t. t.now) result ≡ behind_of front.now text.now }
{
    match split_once(text, front) {
        Some((before, rest)) => { if before.is_empty() { Some(rest) } else { None } }
        None => None,
    }
}

/// What stands before the character, where the text ends with it.
pub(crate) fn before_last(text: &str, c: char) -> Option<&str>
    requires { c < 128 }
    ensures { option_map (λ t. t.now) result ≡ before_last_of c text.now }
{
    text.strip_suffix(c)
}

/// The same text once more.
pub(crate) fn copy(alloc: Global, text: &str) -> Result<Text, Memory>
    ensures { IfOk result (λ copy. copy ≡ text.now) }
{
    Ok(Text::of(String::from_str(alloc, text)?))
}
