// Columns of pairs.
ghost use Rattle.std.specs.Prelude.{◌≡◌, ◌++◌, true, IfOk, OnOk};
ghost use Rattle.std.specs.List.{list_all};
ghost use Rattle.std.specs.Option.{option_map};
ghost use Rattle.std.specs.String.{string_bytes};
ghost use Rattle.record_fields.specs.Columns.{pair_field, column as column_of, is_pair_of_texts, if_spelled as if_spelled_of, column_pairs};

use crate::coding::CODED;
use crate::fields::fields_in;
use crate::pairs::pairs_in;
use gw_base::{Memory, Text};
use percent_encoding::percent_encode;
use std::alloc::Global;

// Appends a pair as a field `name=value`.
fn append_pair(text: &mut String, name: &str, value: &str) -> Result<(), Memory>
    ensures { OnOk result (string_bytes text.new ≡ string_bytes text.old ++ pair_field (name.now, value.now)) }
{
    percent_encode(name.as_bytes(), CODED).append_to(text)?;
    text.push('=')?;
    percent_encode(value.as_bytes(), CODED).append_to(text)?;
    Ok(())
}

/// The column of pairs: their fields `name=value`, joined by one space; of no pairs it is empty. The pairs are of texts, so that
/// the column stands for them where no name has a `=`.
pub fn write_column(alloc: Global, pairs: &[(Text, Text)]) -> Result<Text, Memory>
    ensures value { IfOk result (λ text. text ≡ column_of pairs.now) }
    ensures texts { OnOk result (list_all is_pair_of_texts pairs.now ≡ true) }
{
    let mut text = String::new(alloc);
    for (name, value) in pairs {
        // No field is empty, so that a text that is still empty has none.
        if !text.is_empty() {
            text.push(' ')?;
        }
        append_pair(&mut text, name.as_str(), value.as_str())?;
    }
    Ok(Text::of(text))
}

// The pairs, where their column is just this text.
fn if_spelled(
    alloc: Global,
    column: &str,
    pairs: Vec<(Text, Text)>,
) -> Result<Option<Vec<(Text, Text)>>, Memory>
    ensures { IfOk result (λ same. option_map (λ v. v.items) same ≡ if_spelled_of column.now pairs.items) }
{
    let spelled = write_column(alloc, &pairs)?;
    if spelled.as_str() == column {
        Ok(Some(pairs))
    } else {
        Ok(None)
    }
}

/// The pairs of a column, where it has its form.
#[tactic(auto, unfolding(crate::specs::Columns::column_pairs))]
pub fn read_column(alloc: Global, column: &str) -> Result<Option<Vec<(Text, Text)>>, Memory>
    ensures { IfOk result (λ pairs. option_map (λ v. v.items) pairs ≡ column_pairs column.now) }
{
    if column.is_empty() {
        return Ok(Some(Vec::new(alloc)));
    }
    let Some(fields) = fields_in(alloc, column.as_bytes())? else {
        return Ok(None);
    };
    let Some(pairs) = pairs_in(alloc, &fields)? else {
        return Ok(None);
    };
    if_spelled(alloc, column, pairs)
}
