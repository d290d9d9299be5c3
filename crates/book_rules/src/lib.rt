//! The rules of the book: events and replies, and what each event comes to after a history over the tables that a book opened with.
//!
//! Most of this crate is definitions, in `specs/`. A history is a list of entries; over opening tables it fixes all: the tables as
//! they stand, the reply to the next event, and whether the session is closing. An event comes to a reply and to the row that it
//! writes, if any (`commanded`, `outcome_of`); a change that the keeper did not keep is replied [`Reply::Store`], and its row is not
//! written. Further commands are further cases of these definitions.
//!
//! | Event, after a history | Comes to |
//! |---|---|
//! | `PutApi` under a name such as `a.b` | `Refused(BadName)`, no row |
//! | `Deploy` of an API that was never put | `Refused(NoApi)`, no row |
//! | `Deploy` of one that was deployed twice | `Deployed(3)`, a row of the table `deployments` |
//! | the same, not kept | `Store`, and the tables stay; the next `Deploy` is `Deployed(3)` again, if it is kept |
//! | `PutStage` to a deployment that isn't there | `Refused(NoDeployment)`, no row |
//! | `Enter` at a stage | `Entered`, with the deployment to which the last kept `PutStage` pointed it |
//! | `Learn` of a policy for 300 seconds at 0, then `Recall` of its name at 299,999 | `Learned`; `Remembered`, with the policy |
//! | the same `Recall` at 300,000, behind 1,024 other names, or behind a `Flush` of its stage | `NotRemembered` |
//! | `Flush` of a stage that isn't there | `Refused(NoStage)`, and nothing is forgotten |
//! | `Shutdown` | `Done`, no row; each later `Leave` is `Left { closing: true }` |
//!
//! `specs/Good.antt` says which tables a book starts from: `bad_row` names the first row that is refused, by table and by key.
//! `specs/History.antt` has what no event changes (`Base`), and `Answers`, what an entry and its reply are to the history before.
//!
//! As a law, [`laws::views_are_of_the_last_commands`]: a view is what the last commands left that were kept, whatever the tables are.
//!
//! What is remembered of policies is `remembered` of `policy_memory` over what happened to them in the history (`happened_behind`): each
//! Learn, and each Flush that was answered `Done`. No policy stands in the tables, so none outlives a session.
//!
//! Left out: which policy an authorizer gives, and which name it is learned under, is for the caller to say.
#![tactic(auto)]

mod events;
pub mod laws;
mod replies;

pub use events::{Command, Entry, Event, Limits};
pub use replies::{Refusal, Reply, Usage, View};
