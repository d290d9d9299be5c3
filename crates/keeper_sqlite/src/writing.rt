// The values of a row, as a statement takes them.
ghost use Rattle.std.specs.Prelude.{◌≡◌, ◌<◌, ◌^◌, true, map, nat_lt, pos, IfOk};
ghost use Rattle.std.specs.List.{list_all};
ghost use Rattle.sqlite_value.specs.Value.{owned};
ghost use Rattle.sqlite_value.specs.declared.value.Value.TheVariants.{Text as SqlText};
ghost use Rattle.sqlite.specs.Values.{bound};
ghost use Rattle.keeper_sqlite.specs.Columns.{columns, join_columns, key_values, key_width as key_width_of, can_be_written as can_be_written_of, number as number_of};
ghost use Rattle.keeper_core.specs.declared.rows.Row.TheVariants.{Join as join};

use gw_base::{Memory, Text};
use keeper_core::{ApiRow, DeploymentRow, JoinRow, KeyRow, MetaRow, PlanRow, Row, StageRow, Table};
use sqlite::types::ValueRef;
use std::alloc::Global;

// INTEGER takes numbers below this one.
const LIMIT: u64 = 1 << 63;

fn are_small(numbers: &[u64]) -> bool
    ensures { result ≡ list_all (λ n. nat_lt n (2 ^ 63)) numbers.now }
{
    numbers.iter().all(|n| *n < LIMIT)
}

/// Whether INTEGER takes every number of the row.
pub(crate) fn can_be_written(row: &Row) -> bool
    ensures { result ≡ can_be_written_of row.now }
{
    match row {
        Row::Meta(row) => are_small(&[row.id, row.version]),
        Row::Api(row) => are_small(&[row.text]),
        Row::Deployment(row) => are_small(&[row.number, row.text]),
        Row::Stage(row) => are_small(&[row.deployment, row.canary, row.share]),
        Row::Key(row) => are_small(&[row.enabled]),
        Row::Plan(row) => are_small(&[
            row.rate,
            row.burst,
            row.tversion,
            row.qlimit,
            row.qoffset,
            row.qkind,
        ]),
        Row::Join(row) => join_can_be_written(row),
    }
}

/// The same of a join row.
pub(crate) fn join_can_be_written(row: &JoinRow) -> bool
    ensures { result ≡ can_be_written_of (join row.now) }
{
    are_small(&[
        row.level,
        row.at,
        row.tversion,
        row.pkind,
        row.pnumber,
        row.allowance,
        row.used,
        row.first,
    ])
}

fn number<'a>(n: u64) -> ValueRef<'a>
    requires { n < 2 ^ 63 }
    ensures { owned result ≡ number_of n }
{
    ValueRef::Int(n as i64)
}

fn word(text: &Text) -> ValueRef<'_>
    ensures { owned result ≡ SqlText text.now }
{
    ValueRef::Text(text.as_str().as_bytes())
}

/// The values of a row, column by column.
pub(crate) fn values_of(alloc: Global, row: &Row) -> Result<Vec<ValueRef<'_>>, Memory>
    requires { can_be_written_of row.now ≡ true }
    ensures { IfOk result (λ values. map owned values.items ≡ columns row.now) }
{
    match row {
        Row::Meta(row) => Ok(Vec::from_array(alloc, [number(row.id), number(row.version)])?),
        Row::Api(row) => Ok(Vec::from_array(
            alloc,
            [word(&row.api), number(row.text), word(&row.source)],
        )?),
        Row::Deployment(row) => Ok(Vec::from_array(
            alloc,
            [
                word(&row.api),
                number(row.number),
                number(row.text),
                word(&row.source),
            ],
        )?),
        Row::Stage(row) => Ok(Vec::from_array(
            alloc,
            [
                word(&row.api),
                word(&row.stage),
                number(row.deployment),
                word(&row.vars),
                number(row.canary),
                number(row.share),
                word(&row.canary_vars),
            ],
        )?),
        Row::Key(row) => Ok(Vec::from_array(
            alloc,
            [word(&row.key), word(&row.value), number(row.enabled)],
        )?),
        Row::Plan(row) => Ok(Vec::from_array(
            alloc,
            [
                word(&row.plan),
                number(row.rate),
                number(row.burst),
                number(row.tversion),
                number(row.qlimit),
                number(row.qoffset),
                number(row.qkind),
                word(&row.stages),
            ],
        )?),
        Row::Join(row) => join_values(alloc, row),
    }
}

/// The same of a join row.
pub(crate) fn join_values(alloc: Global, row: &JoinRow) -> Result<Vec<ValueRef<'_>>, Memory>
    requires { can_be_written_of (join row.now) ≡ true }
    ensures { IfOk result (λ values. map owned values.items ≡ join_columns row.now) }
{
    Ok(Vec::from_array(
        alloc,
        [
            word(&row.plan),
            word(&row.key),
            number(row.level),
            number(row.at),
            number(row.tversion),
            number(row.pkind),
            number(row.pnumber),
            number(row.allowance),
            number(row.used),
            number(row.first),
        ],
    )?)
}

fn key_width(table: Table) -> usize
    ensures { result ≡ key_width_of table }
{
    match table {
        Table::Meta | Table::Apis | Table::Keys | Table::Plans => 1,
        Table::Deployments | Table::Stages | Table::Joins => 2,
    }
}

/// The values of the row's key, which are the first of its values.
pub(crate) fn key_of<'a>(row: &Row, values: &'a [ValueRef<'a>]) -> &'a [ValueRef<'a>]
    requires { map owned values.now ≡ columns row.now }
    ensures { bound result.now ≡ key_values row.now }
{
    &values[..key_width(row.table())]
}
