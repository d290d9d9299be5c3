// The text of a uri's pieces.
ghost use Rattle.std.specs.Prelude.{◌≡◌, ◌++◌, IfOk, OnOk, Some, None};
ghost use Rattle.std.specs.Option.{option_map};
ghost use Rattle.std.specs.String.{string_bytes};
ghost use Rattle.call_facts.specs.Pairs.{first_value as first_value_of};
ghost use Rattle.wire_text.specs.Destinations.{coded as coded_of, piece_text as piece_text_of, pieces_text as pieces_text_of, placed as placed_of};

use crate::coding::{RESERVED, RESERVED_BUT_SLASH};
use crate::places::PathValue;
use api_parts::Piece;
use call_facts::first_value;
use gw_base::{Memory, Text};
use percent_encoding::percent_encode;
use std::alloc::Global;

fn push_coded(made: &mut String, value: &PathValue) -> Result<(), Memory>
    ensures { OnOk result (string_bytes made.new ≡ string_bytes made.old ++ coded_of value.now.greedy value.now.value) }
{
    let bytes = value.value.as_str().as_bytes();
    if value.greedy {
        percent_encode(bytes, RESERVED_BUT_SLASH).append_to(made)?;
    } else {
        percent_encode(bytes, RESERVED).append_to(made)?;
    }
    Ok(())
}

fn coded(alloc: Global, value: &PathValue) -> Result<Text, Memory>
    ensures { IfOk result (λ text. text ≡ coded_of value.now.greedy value.now.value) }
{
    let mut made = String::new(alloc);
    push_coded(&mut made, value)?;
    Ok(Text::of(made))
}

// What stands for a placeholder.
fn placed(alloc: Global, values: &[PathValue], name: &str) -> Result<Option<Text>, Memory>
    ensures { IfOk result (λ text. text ≡ placed_of values.now name.now) }
{
    for value in values {
        if value.name.as_str() == name {
            return Ok(Some(coded(alloc, value)?));
        }
    }
    Ok(None)
}

fn variable(alloc: Global, variables: &[(Text, Text)], name: &str) -> Result<Option<Text>, Memory>
    ensures { IfOk result (λ text. text ≡ first_value_of variables.now name.now) }
{
    match first_value(variables, name) {
        Some(value) => Ok(Some(value.copy(alloc)?)),
        None => Ok(None),
    }
}

fn piece_text(
    alloc: Global,
    variables: &[(Text, Text)],
    values: &[PathValue],
    piece: &Piece,
) -> Result<Option<Text>, Memory>
    ensures { IfOk result (λ text. text ≡ piece_text_of variables.now values.now piece.now) }
{
    match piece {
        Piece::Literal(text) => Ok(Some(text.copy(alloc)?)),
        Piece::Variable(name) => variable(alloc, variables, name.as_str()),
        Piece::Placeholder(name) => placed(alloc, values, name.as_str()),
    }
}

/// The text of pieces, where each has a value.
pub fn pieces_text(
    alloc: Global,
    variables: &[(Text, Text)],
    values: &[PathValue],
    pieces: &[Piece],
) -> Result<Option<Text>, Memory>
    ensures { IfOk result (λ text. text ≡ pieces_text_of variables.now values.now pieces.now) }
{
    let mut made = String::new(alloc);
    for piece in pieces {
        let Some(text) = piece_text(alloc, variables, values, piece)? else {
            return Ok(None);
        };
        made.push_str(text.as_str())?;
    }
    Ok(Some(Text::of(made)))
}
