// Rows of the tables, out of the rows of an answer.
ghost use Rattle.std.specs.Prelude.{◌≡◌, ◌<◌, ◌≢◌, IfOk, IsErrOf};
ghost use Rattle.sqlite_value.specs.Order.{column};
ghost use Rattle.sqlite_value.specs.declared.value.Value.TheVariants.{Text as SqlText};
ghost use Rattle.keeper_core.specs.declared.table.Table.TheVariants.{Apis, Deployments, Stages, Keys, Plans, Joins};
ghost use Rattle.keeper_core.specs.declared.table.Table.TheVariants.{Meta as Metas};
ghost use Rattle.keeper_sqlite.specs.Answers.{IsRowOf};
ghost use Rattle.keeper_sqlite.specs.Columns.{Holds, HoldsText, HoldsNumber, FitIn, number as number_of, meta_columns, api_columns, deployment_columns, stage_columns, key_columns, plan_columns, join_columns};

use gw_base::Text;
use keeper_core::{ApiRow, DeploymentRow, JoinRow, KeyRow, MetaRow, PlanRow, Row, StageRow, Table};
use sqlite::{Error, ErrorCode};

/// Why a row of an answer is not read.
#[derive(Clone, Copy, Debug, PartialEq, Eq)]
pub(crate) enum Unread {
    /// It can be no row of the table.
    Unfit,
    /// Memory is wanting.
    Memory,
}

fn reason(error: Error) -> Unread
    ensures { result ≡ Unread.Unfit → error ≢ Error.SqliteFailure ErrorCode.OutOfMemory }
{
    match error {
        Error::SqliteFailure(ErrorCode::OutOfMemory) => Unread::Memory,
        _ => Unread::Unfit,
    }
}

fn text(row: &sqlite::Row, at: usize) -> Result<Text, Unread>
    ensures ok { IfOk result (λ t. column row.now at ≡ SqlText t) }
    ensures unfit { IsErrOf result Unread.Unfit → ¬ HoldsText row.now at }
{
    let text: Result<String, Error> = row.get(at);
    match text {
        Ok(text) => Ok(Text::of(text)),
        Err(error) => Err(reason(error)),
    }
}

fn number(row: &sqlite::Row, at: usize) -> Result<u64, Unread>
    ensures ok { IfOk result (λ n. column row.now at ≡ number_of n) }
    ensures unfit { IsErrOf result Unread.Unfit → ¬ HoldsNumber row.now at }
{
    let number: Result<u64, Error> = row.get(at);
    match number {
        Ok(number) => Ok(number),
        Err(error) => Err(reason(error)),
    }
}

fn meta_of(row: &sqlite::Row) -> Result<MetaRow, Unread>
    ensures ok { IfOk result (λ read. Holds row.now 0 (meta_columns read)) }
    ensures unfit { IsErrOf result Unread.Unfit → ¬ FitIn Metas row.now }
{
    Ok(MetaRow {
        id: number(row, 0)?,
        version: number(row, 1)?,
    })
}

fn api_of(row: &sqlite::Row) -> Result<ApiRow, Unread>
    ensures ok { IfOk result (λ read. Holds row.now 0 (api_columns read)) }
    ensures unfit { IsErrOf result Unread.Unfit → ¬ FitIn Apis row.now }
{
    Ok(ApiRow {
        api: text(row, 0)?,
        text: number(row, 1)?,
        source: text(row, 2)?,
    })
}

fn deployment_of(row: &sqlite::Row) -> Result<DeploymentRow, Unread>
    ensures ok { IfOk result (λ read. Holds row.now 0 (deployment_columns read)) }
    ensures unfit { IsErrOf result Unread.Unfit → ¬ FitIn Deployments row.now }
{
    Ok(DeploymentRow {
        api: text(row, 0)?,
        number: number(row, 1)?,
        text: number(row, 2)?,
        source: text(row, 3)?,
    })
}

fn stage_of(row: &sqlite::Row) -> Result<StageRow, Unread>
    ensures ok { IfOk result (λ read. Holds row.now 0 (stage_columns read)) }
    ensures unfit { IsErrOf result Unread.Unfit → ¬ FitIn Stages row.now }
{
    Ok(StageRow {
        api: text(row, 0)?,
        stage: text(row, 1)?,
        deployment: number(row, 2)?,
        vars: text(row, 3)?,
        canary: number(row, 4)?,
        share: number(row, 5)?,
        canary_vars: text(row, 6)?,
    })
}

fn key_of(row: &sqlite::Row) -> Result<KeyRow, Unread>
    ensures ok { IfOk result (λ read. Holds row.now 0 (key_columns read)) }
    ensures unfit { IsErrOf result Unread.Unfit → ¬ FitIn Keys row.now }
{
    Ok(KeyRow {
        key: text(row, 0)?,
        value: text(row, 1)?,
        enabled: number(row, 2)?,
    })
}

fn plan_of(row: &sqlite::Row) -> Result<PlanRow, Unread>
    ensures ok { IfOk result (λ read. Holds row.now 0 (plan_columns read)) }
    ensures unfit { IsErrOf result Unread.Unfit → ¬ FitIn Plans row.now }
{
    Ok(PlanRow {
        plan: text(row, 0)?,
        rate: number(row, 1)?,
        burst: number(row, 2)?,
        tversion: number(row, 3)?,
        qlimit: number(row, 4)?,
        qoffset: number(row, 5)?,
        qkind: number(row, 6)?,
        stages: text(row, 7)?,
    })
}

fn join_of(row: &sqlite::Row) -> Result<JoinRow, Unread>
    ensures ok { IfOk result (λ read. Holds row.now 0 (join_columns read)) }
    ensures unfit { IsErrOf result Unread.Unfit → ¬ FitIn Joins row.now }
{
    Ok(JoinRow {
        plan: text(row, 0)?,
        key: text(row, 1)?,
        level: number(row, 2)?,
        at: number(row, 3)?,
        tversion: number(row, 4)?,
        pkind: number(row, 5)?,
        pnumber: number(row, 6)?,
        allowance: number(row, 7)?,
        used: number(row, 8)?,
        first: number(row, 9)?,
    })
}

/// The row of the table that a row of the answer is.
pub(crate) fn row_of(table: Table, row: &sqlite::Row) -> Result<Row, Unread>
    ensures ok { IfOk result (IsRowOf table row.now) }
    ensures unfit { IsErrOf result Unread.Unfit → ¬ FitIn table row.now }
{
    match table {
        Table::Meta => Ok(Row::Meta(meta_of(row)?)),
        Table::Apis => Ok(Row::Api(api_of(row)?)),
        Table::Deployments => Ok(Row::Deployment(deployment_of(row)?)),
        Table::Stages => Ok(Row::Stage(stage_of(row)?)),
        Table::Keys => Ok(Row::Key(key_of(row)?)),
        Table::Plans => Ok(Row::Plan(plan_of(row)?)),
        Table::Joins => Ok(Row::Join(join_of(row)?)),
    }
}
