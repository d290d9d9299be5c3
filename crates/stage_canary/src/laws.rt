//! Laws of the definitions. Each is a function without a body, whose clause is the law.
ghost use Rattle.stage_canary.specs.Canaries.{CanaryOverrides, NoShareTakesNone, WholeShareTakesAll};

/// Of merged variables each name has the canary's value where the canary names it, and else the stage's.
pub fn the_canary_overrides_by_name()
    ensures { CanaryOverrides }
{}

/// A share of 0 takes no call.
pub fn no_share_takes_none()
    ensures { NoShareTakesNone }
{}

/// A share of 10,000 takes each.
pub fn the_whole_share_takes_all()
    ensures { WholeShareTakesAll }
{}
