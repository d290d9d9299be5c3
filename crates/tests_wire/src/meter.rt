// What no clause says: that the definitions are those of the calendar and of a token bucket. The dates were computed
// by Python's `datetime`, the other values by hand.
use std::test::*;
use usage_meter::{Allowance, Bucket, Period, PeriodKind, Quota, Throttle, YEAR_2100};

const DAY: u64 = 86_400_000;

/// The numbers of January of 1972, 2000, 2023, 2024, 2096 and 2099.
const JANUARIES: [u32; 6] = [24, 360, 636, 648, 1_512, 1_548];

/// The days on which the months of these years begin, counted from 1 January 1970.
const FIRST_DAYS: [[u32; 12]; 6] = [
    [
        730, 761, 790, 821, 851, 882, 912, 943, 974, 1004, 1035, 1065,
    ],
    [
        10957, 10988, 11017, 11048, 11078, 11109, 11139, 11170, 11201, 11231, 11262, 11292,
    ],
    [
        19358, 19389, 19417, 19448, 19478, 19509, 19539, 19570, 19601, 19631, 19662, 19692,
    ],
    [
        19723, 19754, 19783, 19814, 19844, 19875, 19905, 19936, 19967, 19997, 20028, 20058,
    ],
    [
        46021, 46052, 46081, 46112, 46142, 46173, 46203, 46234, 46265, 46295, 46326, 46356,
    ],
    [
        47117, 47148, 47176, 47207, 47237, 47268, 47298, 47329, 47360, 47390, 47421, 47451,
    ],
];

#[test]
fn a_call_is_admitted_where_the_bucket_holds_one(rt: HostRuntime) {
    // The rate, the moment of a call, and whether a bucket of two that was full at 0 admits it after the calls above.
    let calls = [
        (1, 0, true),
        (1, 0, true),
        (1, 0, false),
        (1, 999, false),
        (1, 1_000, true),
        (2, 0, true),
        (2, 0, true),
        (2, 499, false),
        (2, 500, true),
        (2, 10_000, true),
        (2, 10_000, true),
        (2, 10_000, false),
    ];
    let full = Bucket {
        level: 2_000,
        at: 0,
    };
    let mut bucket = full;
    let mut last = 1;
    for (rate, t, admitted) in calls {
        if rate != last {
            bucket = full;
            last = rate;
        }
        assert!(rt; 1 <= rate && rate <= 2 && bucket.level <= 2_000);
        assert!(rt; bucket.at <= t && t < YEAR_2100);
        let throttle = Throttle { rate, burst: 2 };
        assert_eq!(rt; bucket.take(throttle, t), admitted, "rate {rate} at {t}");
    }
}

#[test]
fn a_moment_lies_in_the_period_of_the_calendar(rt: HostRuntime) {
    let periods = [
        (PeriodKind::Day, 0, 0),
        (PeriodKind::Day, DAY - 1, 0),
        (PeriodKind::Day, DAY, 1),
        (PeriodKind::Day, YEAR_2100 - 1, 47_481),
        // Day 0 is a Thursday, day 3 a Sunday and day 4 a Monday.
        (PeriodKind::Week, 0, 0),
        (PeriodKind::Week, 3 * DAY, 0),
        (PeriodKind::Week, 4 * DAY - 1, 0),
        (PeriodKind::Week, 4 * DAY, 1),
        (PeriodKind::Week, 11_016 * DAY, 1_574),
        (PeriodKind::Week, YEAR_2100 - 1, 6_783),
        (PeriodKind::Month, 0, 0),
        // 29 February of 2000, of 2024 and of 2096.
        (PeriodKind::Month, 11_016 * DAY, 361),
        (PeriodKind::Month, 19_782 * DAY, 649),
        (PeriodKind::Month, 46_080 * DAY, 1_513),
        (PeriodKind::Month, YEAR_2100 - 1, 1_559),
    ];
    for (kind, moment, number) in periods {
        assert!(rt; moment < YEAR_2100);
        assert_eq!(rt;
            Period::of(moment, kind),
            Period { kind, number },
            "at {moment}"
        );
    }
}

#[test]
fn a_month_changes_on_its_first_day(rt: HostRuntime) {
    for (january, first_days) in JANUARIES.into_iter().zip(FIRST_DAYS) {
        for (number, day) in (january..1_560).zip(first_days) {
            let begin = u64::from(day) * DAY;
            assert!(rt; 0 < begin && begin < YEAR_2100 && 0 < number);
            let month = Period::of(begin, PeriodKind::Month);
            let before = Period::of(begin - 1, PeriodKind::Month);
            assert_eq!(rt; month.number, number, "on day {day}");
            assert_eq!(rt; before.number, number - 1, "before day {day}");
        }
    }
}

#[test]
fn a_row_keeps_its_period_as_long_as_it_lasts(rt: HostRuntime) {
    let daily = Quota {
        limit: 100,
        offset: 10,
        kind: PeriodKind::Day,
    };
    let weekly = Quota {
        limit: 700,
        offset: 10,
        kind: PeriodKind::Week,
    };
    let unused = Allowance {
        period: None,
        allowance: 0,
        used: 0,
        first: false,
    };
    let day_0 = Some(Period {
        kind: PeriodKind::Day,
        number: 0,
    });
    let day_1 = Some(Period {
        kind: PeriodKind::Day,
        number: 1,
    });
    let week_1 = Some(Period {
        kind: PeriodKind::Week,
        number: 1,
    });
    let begun = Allowance {
        period: day_0,
        allowance: 90,
        used: 0,
        first: true,
    };
    let spent = Allowance {
        period: day_0,
        allowance: 90,
        used: 90,
        first: true,
    };
    let second = Allowance {
        period: day_1,
        allowance: 100,
        used: 0,
        first: false,
    };
    let by_week = Allowance {
        period: week_1,
        allowance: 700,
        used: 0,
        first: false,
    };
    let rows = [
        (unused, None, 0, None),
        (unused, Some(daily), 0, Some(begun)),
        (spent, Some(daily), DAY - 1, Some(spent)),
        (spent, Some(weekly), DAY - 1, Some(spent)),
        (spent, None, DAY - 1, Some(spent)),
        (spent, Some(daily), DAY, Some(second)),
        (spent, Some(weekly), 4 * DAY, Some(by_week)),
        (spent, None, DAY, None),
    ];
    for (row, quota, t, wanted) in rows {
        assert!(rt; t < YEAR_2100);
        assert_eq!(rt; row.at(quota, t), wanted, "at {t}");
    }
}
