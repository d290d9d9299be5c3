// How many calls a quota allows in a period, and how many of them were used.
ghost use Rattle.std.specs.Prelude.{◌≡◌, ◌<◌, ◌≤◌, ◌↔◌, IsNone, IfSome, IsSomeAnd};
ghost use Rattle.std.specs.Option.{ForSome};
ghost use Rattle.usage_meter.specs.Allowances.{allowance_at, opened_allowance};
ghost use Rattle.usage_meter.specs.Periods.{begin_of, HasEnded, Holds};

use crate::period::{Period, PeriodKind, YEAR_2100};

/// The calls that a plan allows in each period.
#[derive(Clone, Copy, Debug, PartialEq, Eq)]
pub struct Quota {
    pub limit: u64,
    /// The calls by which the limit is lowered in a row's first period; at most the limit.
    pub offset: u64,
    pub kind: PeriodKind,
}

impl Quota {
    /// The allowance of a period that is opened at the moment.
    fn open(self, t: u64, first: bool) -> Allowance
        requires early { t < YEAR_2100 }
        requires offset { self.offset ≤ self.limit }
        ensures value { result ≡ opened_allowance self t first }
        ensures holds { IsSomeAnd result.period (λ period. Holds period t) }
    {
        let lowered = if first { self.offset } else { 0 };
        Allowance {
            period: Some(Period::of(t, self.kind)),
            allowance: self.limit - lowered,
            used: 0,
            first,
        }
    }
}

/// One row of counts: the period that was opened last, and what is allowed and used in it.
#[derive(Clone, Copy, Debug, PartialEq, Eq)]
pub struct Allowance {
    /// None before the first period.
    pub period: Option<Period>,
    /// The calls that are allowed in the period.
    pub allowance: u64,
    /// The calls that were admitted in the period.
    pub used: u64,
    /// Whether it is the row's first period.
    pub first: bool,
}

impl Allowance {
    /// What stands at a moment that isn't before the period's beginning: this row, as long as its own period lasts.
    /// After that a period is opened under the quota as it is now, with nothing used, the limit allowed, and in the
    /// row's first period lowered by the offset. None comes exactly where no period stands: the row's own is over or
    /// never was, and there is no quota.
    pub fn at(&self, quota: Option<Quota>, t: u64) -> Option<Allowance>
        requires early { t < YEAR_2100 }
        requires begun { ForSome self.now.period (λ own. begin_of own ≤ t) }
        requires offset { ForSome quota (λ quota. quota.offset ≤ quota.limit) }
        ensures value { result ≡ allowance_at self.now quota t }

        // A period that still lasts stays as it is, whatever the quota is now.
        ensures own { IfSome self.now.period (λ own. Holds own t → result ≡ Some self.now) }
        ensures holds { IfSome result (λ row. IsSomeAnd row.period (λ period. Holds period t)) }
        ensures none { IsNone result ↔ (IsNone quota × HasEnded self.now.period t) }
    {
        match self.period {
            Some(own) if own.holds(t) => Some(*self),
            last => Some(quota?.open(t, last.is_none())),
        }
    }
}
