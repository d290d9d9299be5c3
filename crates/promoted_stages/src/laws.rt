//! Laws of the definitions. Each is a function without a body, whose clause is the law.
ghost use Rattle.promoted_stages.specs.Laws.{CallsSeeWhatTheCanarySaw, PromotedStagesHaveTheMergedVariables, StagesHaveVariables};

/// Each pair of a stage, and each of its canary, is a variable: a name, and a text of at most 2,048 bytes.
#[tactic(auto, using(crate::proofs::Staging::stages_have))]
pub fn stages_have_variables()
    ensures { StagesHaveVariables }
{}

/// A stage whose canary is promoted has the canary's deployment and just the merged variables, and no canary: nothing is lost by the
/// column of text that keeps them.
#[tactic(auto, using(crate::proofs::Promoting::promoted_is))]
pub fn promoted_stages_have_the_merged_variables()
    ensures { PromotedStagesHaveTheMergedVariables }
{}

/// Right behind a PromoteCanary that was carried out and kept, each call of the stage sees the deployment and the variables that the
/// canary's calls saw before it.
pub fn calls_see_what_the_canary_saw()
    ensures { CallsSeeWhatTheCanarySaw }
{}
