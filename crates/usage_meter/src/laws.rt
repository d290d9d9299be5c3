//! Laws of the definitions that the contracts cite. Each is a function without a body, whose clause is the law.
ghost use Rattle.usage_meter.specs.Levels.{TwiceIsOnce};
ghost use Rattle.usage_meter.specs.Periods.{LiesInOne, MondayBeginsWeek, MonthIsOfDate, NumbersNeverFall};
ghost use Rattle.usage_meter.specs.Windows.{AdmitsByWindows, KeptIsLeast, NoneIsOverdrawn};

/// A level that is brought up to date at one moment and again at a later one is the level that is brought up to date
/// there at once.
pub fn level_twice_up_to_date_is_once()
    ensures { TwiceIsOnce }
{}

/// One level, kept and brought up to date at each admission, is the least over all windows of admissions since the
/// bucket began.
pub fn kept_level_is_least_over_windows()
    ensures { KeptIsLeast }
{}

/// In no window did admissions take more than it held.
pub fn no_window_is_overdrawn()
    ensures { NoneIsOverdrawn }
{}

/// Over any attempts in order the kept level admits exactly those that the windows admit.
pub fn attempts_are_admitted_by_windows()
    ensures { AdmitsByWindows }
{}

/// The number of a period never falls as moments go on.
pub fn period_numbers_never_fall()
    ensures { NumbersNeverFall }
{}

/// Every moment lies in exactly one period of a kind.
pub fn moment_lies_in_one_period()
    ensures { LiesInOne }
{}

/// A week begins on Monday.
pub fn week_begins_on_monday()
    ensures { MondayBeginsWeek }
{}

/// The number of a month is `12 * (year - 1970) + month - 1`, by the date of the moment.
pub fn month_number_is_of_date()
    ensures { MonthIsOfDate }
{}
