// The table of writes below `$context`.
ghost use Rattle.std.specs.Prelude.{◌≡◌, ◌≤◌, length, IfOk, OnOk, OnErr};
ghost use Rattle.vtl_eval.specs.Roots.{same_path as same_path_of, put_path};
ghost use Rattle.gateway_vars.specs.Rows.{kept_of, place_of as place_of_path};

use gw_base::{Memory, Seq, Text};
use std::alloc::Global;
use vtl_values::Value;

/// What was written to a path below `$context`.
#[derive(Drop)]
pub struct Row {
    /// The names of the path.
    pub path: Seq<Text>,
    /// The value.
    pub value: Value,
}

fn same_path(path: &[Text], other: &[Text]) -> bool
    ensures { result ≡ same_path_of path.now other.now }
{
    let mut left = path;
    let mut right = other;
    while let Some((name, rest)) = left.split_first() {
        let Some((other_name, others)) = right.split_first() else {
            return false;
        };
        if name.as_str() != other_name.as_str() {
            return false;
        }
        left = rest;
        right = others;
    }
    right.is_empty()
}

fn copied(alloc: Global, path: &[Text]) -> Result<Vec<Text>, Memory>
    ensures { IfOk result (λ made. made.items ≡ path.now) }
{
    let mut made = Vec::new(alloc);
    for name in path {
        made.push(name.copy(alloc)?)?;
    }
    Ok(made)
}

// The place of the first row of this path, or the number of the rows.
fn place(rows: &[Row], path: &[Text]) -> usize
    ensures value { result ≡ place_of_path rows.now path.now }
    ensures within { result ≤ length rows.now }
{
    let mut i = 0;
    for row in rows {
        if same_path(row.path.as_slice(), path) {
            return i;
        }
        i += 1;
    }
    i
}

/// Writes a value to a path: in the place of the first of its path, or at the end.
pub(crate) fn put_row(
    alloc: Global,
    rows: &mut Vec<Row>,
    path: &[Text],
    value: &Value,
) -> Result<(), Memory>
    ensures ok { OnOk result (kept_of rows.new.items ≡ put_path (kept_of rows.old.items) path.now value.now) }
    ensures err { OnErr result (kept_of rows.new.items ≡ kept_of rows.old.items) }
{
    let row = Row {
        path: Seq::of(copied(alloc, path)?),
        value: value.copied()?,
    };
    let i = place(rows, path);
    if i < rows.len() {
        rows[i] = row;
    } else {
        rows.push(row)?;
    }
    Ok(())
}
