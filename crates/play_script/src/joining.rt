// Pieces of text, join.
ghost use Rattle.std.specs.Prelude.{◌≡◌, ℕ, List, map, IfOk};
ghost use Rattle.std.specs.Borrow.{Bor};
ghost use Rattle.std.specs.List.{concat};

use gw_base::{Memory, Text};
use std::alloc::Global;

/// The pieces in order, with nothing between them.
pub fn join(alloc: Global, pieces: &[&str]) -> Result<Text, Memory>
    ensures { IfOk result (λ text. text ≡ concat (map (λ (piece : Bor (List ℕ)). piece.now) pieces.now)) }
{
    let mut text = String::new(alloc);
    for piece in pieces {
        text.push_str(piece)?;
    }
    Ok(Text::of(text))
}
