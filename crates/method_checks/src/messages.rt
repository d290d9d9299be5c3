// The message that names what is missing.
ghost use Rattle.std.specs.Prelude.{◌≡◌, ℕ, List, map, IfOk};
ghost use Rattle.std.specs.Borrow.{Bor};
ghost use Rattle.std.specs.String.{string_bytes};
ghost use Rattle.method_checks.specs.Messages.{listed, missing_message as missing_message_of};

use call_facts::Kind;
use gw_base::{Memory, Text};
use std::alloc::Global;

// The names, parted by commas.
fn list(alloc: Global, names: &[&str]) -> Result<String, Memory>
    ensures { IfOk result (λ text. string_bytes text ≡ listed (map (λ (name : Bor (List ℕ)). name.now) names.now)) }
{
    let Some((first, others)) = names.split_first() else {
        return Ok(String::new(alloc));
    };
    let mut text = String::from_str(alloc, first)?;
    for name in others {
        text.push_str(", ")?;
        text.push_str(name)?;
    }
    Ok(text)
}

/// The message that names these parameters.
#[tactic(auto, unfolding(crate::specs::Messages::missing_message))]
pub fn missing_message(alloc: Global, names: &[&str]) -> Result<Text, Memory>
    ensures { IfOk result (λ message. message ≡ missing_message_of (map (λ (name : Bor (List ℕ)). name.now) names.now)) }
{
    let mut text = String::from_str(alloc, Kind::BadRequestParameters.message())?;
    let names = list(alloc, names)?;
    text.push_str(": [")?;
    text.push_str(names.as_str())?;
    text.push_str("]")?;
    Ok(Text::of(text))
}
