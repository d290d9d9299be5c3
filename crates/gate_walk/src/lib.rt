//! The way of a message through the gateway, the story of a connection, and the connections of a lane: definitions, with the
//! little that is computed of a message alone.
//!
//! A way (`walk`) is a tree of what is asked next: a step of the book, and what each reply to it leads to; an exchange with a
//! backend; or the answer, with its cause. What was done is a list of acts, which lead along the tree (`Goes`) and stand in
//! the book's one history, with other seats' entries between them (`Stand`). A further capability of the gateway is a further
//! step of the tree, and changes neither what an act is nor what a story is.
//!
//! ```text
//! POST /hello/v1, body Ann:  asks Enter  ->  Entered, the stage's view
//!                            asks Leave  ->  Left, whether the session is closing
//!                            answers     200, `Hi Ann!`, no cause, the connection stays open
//! ```
//!
//! | A message | Its way |
//! |---|---|
//! | to a stage of a text API | Enter, Leave with 200; the text of the template over the view of its Enter |
//! | to a stage of an API that is a document | Enter, Leave; the first of its route, its parameters and its body that fails is answered, else what its integration answers without a backend |
//! | to a method that asks a backend | Enter, one exchange, Leave with the answer to its outcome: the mapped or the passed reply, or 504 with its cause |
//! | to a method that has an authorizer | Enter, Recall; where no policy is remembered, one exchange with the authorizer, and Learn of the policy that it gives; one that allows the call lets it go on, and else Leave with the kind that tells why. An authorizer whose policies may not be remembered is asked each time, without Recall and Learn |
//! | to a method that asks for a key | Enter, then one Admit by the value of its header `x-api-key`; admitted, it goes on to its checks, and else Leave with the kind that tells why |
//! | whose render stops | Enter, Leave with 500 and `API_CONFIGURATION_ERROR` |
//! | to a stage that is not there | Enter, Leave with 403 and `UNKNOWN_STAGE` |
//! | whose body is too large | Enter, Leave with 413 and `REQUEST_TOO_LARGE`, whatever its stage, but for the rules of that stage's API; the connection closes |
//! | to the administration | the command, if one is asked for, and Leave with the answer to its reply; no cause |
//! | where the session is full | the step in hand, refused: nothing follows |
//!
//! * [`Message`] is a message with its number on the connection, its moment and its word of chance; [`plan_for`] makes what it
//!   comes to by the reply to its Enter, and [`closes`] tells whether the connection closes behind it (RFC 9112, section 9.6).
//! * [`admission_of`] tells what the reply to an Admit is to the call, and [`policy_in`] which policy a reply to a Recall remembers.
//! * [`Ended`] is how a connection ended, and [`LaneEnd`] how a lane did.
//!
//! What is promised: `plan_for` and `closes` are their definitions (`planned_for`, `specs/Planning.antt`; `closes`,
//! `specs/Closing.antt`), and an end is printed as `ended_name` says. `specs/Stories.antt` says what a connection's story is by
//! each of its nine ends (`Tells`), `specs/Lanes.antt` the same of a lane. As laws, [`laws`]: what stands in a history stands
//! in each longer one without an entry of that seat; each answer names the one cause that it has; a kind that tells of an
//! admission is answered only behind an Admit that was replied so, and a way has one Admit at most, exactly where a method asks
//! for a key; and where all that is outside of it is told and one seat makes all entries, a connection comes to one thing
//! (`ComesTo`, `specs/Told.antt`).
#![tactic(auto)]

mod admitting;
mod closing;
mod ended;
pub mod laws;
mod message;
mod planning;
mod recalling;

pub use admitting::admission_of;
pub use closing::closes;
pub use ended::{Ended, LaneEnd, SessionFull};
pub use message::Message;
pub use planning::plan_for;
pub use recalling::policy_in;
