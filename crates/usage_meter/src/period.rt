// The days, weeks and months in which a quota counts.
ghost use Rattle.std.specs.Prelude.{◌≡◌, ◌<◌, ◌↔◌, IsTrue, Some, pos};
ghost use Rattle.jiff.specs.Words.{epoch_day};
ghost use Rattle.usage_meter.specs.Months.{month_of};
ghost use Rattle.usage_meter.specs.Periods.{period_at, is_standing, Holds};

use jiff::ToSpan;
use jiff::civil::{Date, date};

/// The first moment that isn't counted any more: the beginning of the year 2100 in UTC, in milliseconds since 1970.
pub const YEAR_2100: u64 = 4_102_444_800_000;

/// Milliseconds.
const DAY: u64 = 86_400_000;

/// How long a quota counts before it begins anew.
#[derive(Clone, Copy, Debug, PartialEq, Eq)]
pub enum PeriodKind {
    /// A day in UTC.
    Day,
    /// Seven days in UTC, from a Monday on.
    Week,
    /// A month of the Gregorian calendar in UTC.
    Month,
}

/// One day, week or month. The numbers of a kind are counted up from 0, the one that holds the beginning of 1970.
#[derive(Clone, Copy, Debug, PartialEq, Eq)]
pub struct Period {
    pub kind: PeriodKind,
    pub number: u32,
}

impl Period {
    /// The period of this kind that holds the moment, in milliseconds since 1970. A day's number is the days since 1
    /// January 1970, a week's is `(day + 3) / 7`, rounded down, and a month's `12 * (year - 1970) + month - 1`.
    pub fn of(moment: u64, kind: PeriodKind) -> Period
        requires { moment < YEAR_2100 }
        ensures value { result ≡ period_at kind moment }
        ensures holds { Holds result moment }
    {
        let day = (moment / DAY) as u32;
        let number = match kind {
            PeriodKind::Day => day,
            // Day 0 was a Thursday, three days after a Monday.
            PeriodKind::Week => (day + 3) / 7,
            PeriodKind::Month => month_of(day),
        };
        Period { kind, number }
    }

    /// Whether the period holds the moment.
    pub(crate) fn holds(self, moment: u64) -> bool
        requires { moment < YEAR_2100 }
        ensures value { result ≡ is_standing (Some self) moment }
        ensures holds { IsTrue result ↔ Holds self moment }
    {
        Period::of(moment, self.kind).number == self.number
    }
}

/// The number of the month of a day that is counted from 1 January 1970. The year 2100 begins on day 47,482.
fn month_of(day: u32) -> u32
    requires { day < 47_482 }
    ensures { result ≡ month_of day }
{
    let date = date_of(day);
    12 * (date.year() as u32 - 1970) + date.month() as u32 - 1
}

/// The date of that day.
fn date_of(day: u32) -> Date
    requires { day < 47_482 }
    ensures { epoch_day result ≡ pos day }
{
    date(1970, 1, 1) + i64::from(day).days()
}
