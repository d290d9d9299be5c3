//! Laws of the definitions. Each is a function without a body, whose clause is the law.
ghost use Rattle.policy_memory.specs.Laws.{PlacesMayBeLeftOut, UsedWithinItsSeconds, FlushForgets, FlushForgetsNoOther, FlushedKeepsItsPlace, OldestGoesFirst};

/// Other events take places too, so the place of the next happening may lie further on.
pub fn places_may_be_left_out()
    ensures { PlacesMayBeLeftOut }
{}

/// What was learned last may be used below its moment and 1,000 times its seconds.
pub fn what_is_learned_is_used_within_its_seconds()
    ensures { UsedWithinItsSeconds }
{}

/// A flush forgets all that was learned at its API and stage.
pub fn a_flush_forgets()
    ensures { FlushForgets }
{}

/// A flush of one stage forgets nothing of another.
pub fn a_flush_forgets_no_other_stage()
    ensures { FlushForgetsNoOther }
{}

/// A flushed name keeps its place.
pub fn a_flushed_name_keeps_its_place()
    ensures { FlushedKeepsItsPlace }
{}

/// Where 1,024 names have a place, one more pushes out the one that was learned longest ago.
pub fn the_oldest_name_goes_first()
    ensures { OldestGoesFirst }
{}
