// What the writes of a template come to.
ghost use Rattle.std.specs.Prelude.{◌≡◌, IfOk, OnOk};
ghost use Rattle.std.specs.String.{string_bytes};
ghost use Rattle.vtl_values.specs.Printed.{printed as printed_of};
ghost use Rattle.gateway_vars.specs.Overriding.{put_pair as put_pair_of, nothing as no_changes, changed as changed_of, after_write as after_write_of, overridden as overridden_of};
ghost use Rattle.gateway_vars.specs.Changes.{place_of as place_of_name};
ghost use Rattle.gateway_vars.specs.Rows.{row_of, kept_of};

use crate::slots::{Part, Side, slot_of};
use crate::table::Row;
use gw_base::{Memory, Seq, Text};
use std::alloc::Global;
use vtl_values::{Value, print};

/// The most bytes of a printed value; a longer one is want of memory, and is not made.
const LONGEST: u64 = 268_435_456;

/// The values that a template wrote over those of its message, printed.
#[derive(Drop)]
pub struct Overrides {
    /// Header fields, their names in lower case.
    pub headers: Seq<(Text, Text)>,
    /// Parameters of the query.
    pub query: Seq<(Text, Text)>,
    /// Parameters of the path.
    pub path: Seq<(Text, Text)>,
    /// The status.
    pub status: Option<Text>,
}

fn nothing(alloc: Global) -> Overrides
    ensures { result ≡ no_changes }
{
    Overrides {
        headers: Seq::new(alloc),
        query: Seq::new(alloc),
        path: Seq::new(alloc),
        status: None,
    }
}

// The place of the first pair of this name, or the number of the pairs.
fn place(pairs: &[(Text, Text)], name: &str) -> usize
    ensures { result ≡ place_of_name pairs.now name.now }
{
    let mut i = 0;
    for pair in pairs {
        if pair.0.as_str() == name {
            return i;
        }
        i += 1;
    }
    i
}

fn put_pair(pairs: &mut Vec<(Text, Text)>, name: Text, text: Text) -> Result<(), Memory>
    ensures { OnOk result (pairs.new.items ≡ put_pair_of pairs.old.items name text) }
{
    let i = place(pairs, name.as_str());
    if i < pairs.len() {
        pairs[i] = (name, text);
    } else {
        pairs.push((name, text))?;
    }
    Ok(())
}

fn with_pair(pairs: Seq<(Text, Text)>, name: Text, text: Text) -> Result<Seq<(Text, Text)>, Memory>
    ensures { IfOk result (λ made. made ≡ put_pair_of pairs name text) }
{
    let mut made = pairs.into_inner();
    put_pair(&mut made, name, text)?;
    Ok(Seq::of(made))
}

fn changed(
    alloc: Global,
    changes: Overrides,
    part: Part,
    name: &str,
    text: Text,
) -> Result<Overrides, Memory>
    ensures { IfOk result (λ made. made ≡ changed_of changes part name.now text) }
{
    let Overrides {
        headers,
        query,
        path,
        status,
    } = changes;
    match part {
        Part::Header => {
            let headers = with_pair(headers, Text::of(String::from_str(alloc, name)?), text)?;
            Ok(Overrides {
                headers,
                query,
                path,
                status,
            })
        }
        Part::Query => {
            let query = with_pair(query, Text::of(String::from_str(alloc, name)?), text)?;
            Ok(Overrides {
                headers,
                query,
                path,
                status,
            })
        }
        Part::Path => {
            let path = with_pair(path, Text::of(String::from_str(alloc, name)?), text)?;
            Ok(Overrides {
                headers,
                query,
                path,
                status,
            })
        }
        Part::Status => Ok(Overrides {
            headers,
            query,
            path,
            status: Some(text),
        }),
    }
}

/// A value as it is printed. [`Memory`] is answered for one of more than 268,435,456 bytes too.
pub fn printed_text(alloc: Global, value: &Value) -> Result<Text, Memory>
    ensures { IfOk result (λ text. text ≡ printed_of value.now) }
{
    let mut text = String::new(alloc);
    match print(value, &mut text, LONGEST) {
        Ok(()) => Ok(Text::of(text)),
        Err(_) => Err(Memory),
    }
}

fn after_write(
    alloc: Global,
    side: Side,
    changes: Overrides,
    row: &Row,
) -> Result<Overrides, Memory>
    ensures { IfOk result (λ made. made ≡ after_write_of side changes (row_of row.now)) }
{
    match slot_of(side, row.path.as_slice()) {
        Some((part, name)) => {
            let text = printed_text(alloc, &row.value)?;
            changed(alloc, changes, part, name, text)
        }
        None => Ok(changes),
    }
}

/// What the rows of a table come to.
pub(crate) fn overridden(alloc: Global, side: Side, rows: &[Row]) -> Result<Overrides, Memory>
    ensures { IfOk result (λ made. made ≡ overridden_of side (kept_of rows.now)) }
{
    let mut changes = nothing(alloc);
    for row in rows {
        changes = after_write(alloc, side, changes, row)?;
    }
    Ok(changes)
}
