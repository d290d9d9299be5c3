//! What a promotion of a canary leaves, by a session's history alone: laws of definitions of [`book_rules`].
//!
//! A stage may have a canary: another deployment with a share of its calls, and variables that override the stage's by name. A
//! PromoteCanary makes the canary's deployment and the merged variables the stage's own. A row keeps variables as a column of text, so
//! the definition of a promoted stage ([`book_rules`]'s view by the last commands) has the merged variables as their column is read.
//!
//! What is promised, as laws over every history from tables that a book starts from, for each stage:
//!
//! - [`laws::stages_have_variables`]: each pair of a stage, and each of its canary, is a variable: a name, and a text of at most 2,048
//!   bytes.
//! - [`laws::promoted_stages_have_the_merged_variables`]: so nothing is lost by that column. A stage whose canary is promoted has the
//!   canary's deployment and just the merged variables, and no canary.
//! - [`laws::calls_see_what_the_canary_saw`]: right behind a PromoteCanary that was kept, each call of the stage sees the deployment and
//!   the variables that the canary's calls saw before it.
//!
//! That merged variables are the canary's by name, and else the stage's, is a law of [`stage_canary`].
//!
//! Left out: nothing is computed here. Whether a book keeps its tables and answers so is its own contract.
#![tactic(auto)]

pub mod laws;
