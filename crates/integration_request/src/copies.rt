// Texts and pairs once more.
ghost use Rattle.std.specs.Prelude.{◌≡◌, ◌++◌, IfOk, OnOk};

use gw_base::{Memory, Text};
use std::alloc::Global;

/// The text.
pub fn text(alloc: Global, from: &str) -> Result<Text, Memory>
    ensures { IfOk result (λ made. made ≡ from.now) }
{
    Ok(Text::of(String::from_str(alloc, from)?))
}

/// The same pair once more.
pub fn copy(alloc: Global, pair: &(Text, Text)) -> Result<(Text, Text), Memory>
    ensures { IfOk result (λ made. made ≡ pair.now) }
{
    Ok((pair.0.copy(alloc)?, pair.1.copy(alloc)?))
}

/// Adds copies of these pairs.
pub fn push_all(
    alloc: Global,
    made: &mut Vec<(Text, Text)>,
    pairs: &[(Text, Text)],
) -> Result<(), Memory>
    ensures { OnOk result (made.new.items ≡ made.old.items ++ pairs.now) }
{
    for pair in pairs {
        made.push(copy(alloc, pair)?)?;
    }
    Ok(())
}

/// Copies of these pairs.
pub fn copies(alloc: Global, pairs: &[(Text, Text)]) -> Result<Vec<(Text, Text)>, Memory>
    ensures { IfOk result (λ made. made.items ≡ pairs.now) }
{
    let mut made = Vec::new(alloc);
    push_all(alloc, &mut made, pairs)?;
    Ok(made)
}
