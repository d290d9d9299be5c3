// The numbers of the tables' rows.
ghost use Rattle.std.specs.Prelude.{◌≡◌, ◌<◌};
ghost use Rattle.keeper_core.specs.Joins.{with_numbers};
ghost use Rattle.keeper_core.specs.declared.rows.JoinRow.{JoinRow as JoinRowOf};
ghost use Rattle.usage_plans.specs.Rows.{IsPlanRow, kind_column, kind_in, number_column, row_with, tally_in, terms_in};
ghost use Rattle.usage_plans.specs.Terms.{IsTerms};

use crate::tally::Tally;
use crate::terms::Terms;
use keeper_core::{JoinNumbers, JoinRow, PlanRow};
use usage_meter::{Allowance, Bucket, Period, PeriodKind, Quota, Throttle};

// The kind of a period's column.
fn kind_of(column: u64) -> Option<PeriodKind>
    ensures { result ≡ kind_in column }
{
    match column {
        1 => Some(PeriodKind::Day),
        2 => Some(PeriodKind::Week),
        3 => Some(PeriodKind::Month),
        _ => None,
    }
}

// The columns of a period.
fn columns_of(period: Option<Period>) -> (u64, u64)
    ensures kind { result.0 ≡ kind_column period }
    ensures number { result.1 ≡ number_column period }
{
    let Some(period) = period else {
        return (0, 0);
    };
    let kind = match period.kind {
        PeriodKind::Day => 1,
        PeriodKind::Week => 2,
        PeriodKind::Month => 3,
    };
    (kind, u64::from(period.number))
}

/// The terms of a plan, by its row.
pub fn terms_of(plan: &PlanRow) -> Terms
    requires { IsPlanRow plan.now }
    ensures value { result ≡ terms_in plan.now }
    ensures terms { IsTerms result }
{
    let throttle = match plan.burst {
        0 => None,
        burst => Some(Throttle {
            rate: plan.rate as u32,
            burst: burst as u32,
        }),
    };
    let quota = match kind_of(plan.qkind) {
        None => None,
        Some(kind) => Some(Quota {
            limit: plan.qlimit,
            offset: plan.qoffset,
            kind,
        }),
    };
    Terms {
        throttle,
        version: plan.tversion,
        quota,
    }
}

/// The tally of a key that joined a plan, by its row.
pub fn tally_of(row: &JoinRow) -> Tally
    requires { row.now.pnumber < 4294967296 }
    ensures { result ≡ tally_in row.now }
{
    let period = match kind_of(row.pkind) {
        None => None,
        Some(kind) => Some(Period {
            kind,
            number: row.pnumber as u32,
        }),
    };
    Tally {
        bucket: Bucket {
            level: row.level,
            at: row.at,
        },
        version: row.tversion,
        allowance: Allowance {
            period,
            allowance: row.allowance,
            used: row.used,
            first: row.first == 1,
        },
    }
}

/// The numbers of a tally, as the columns of its join's row.
pub fn numbers_of(tally: Tally) -> JoinNumbers
    ensures { (row : JoinRowOf) → with_numbers row result ≡ row_with row tally }
{
    let (kind, number) = columns_of(tally.allowance.period);
    JoinNumbers {
        level: tally.bucket.level,
        at: tally.bucket.at,
        tversion: tally.version,
        pkind: kind,
        pnumber: number,
        allowance: tally.allowance.allowance,
        used: tally.allowance.used,
        first: u64::from(tally.allowance.first),
    }
}
