//! Scripts: calls and commands, line by line, over a session.
//!
//! [`play_within`] takes a script and an output. It reads the script line by line: each line is a record, whose fields are
//! parted by one space, and a record is a command of the book or a connection with the bytes of its messages. It prints
//! what each line comes to, and answers the status at which the play ends.
//!
//! ```text
//! text 0 hello Hi%20$input.body!       done
//! deploy 0 hello                       deployed 1
//! stage 0 hello v1 1                   done
//! post 0 0 hello v1 Ann                answer HTTP/1.1%20200%20OK%0D%0A..   and   ended Closed
//! ```
//!
//! | line of a script | prints |
//! |---|---|
//! | empty, or begins with `#` | nothing |
//! | `deploy 0 nope` | `refused NoApi`, and the play goes on |
//! | `post 0 0 hello v2 Ann` | the 403 answer whose cause is `UNKNOWN_STAGE` |
//! | `keepfails 1`, and then `text 0 a x` | `store`: the keeper's call 1 fails |
//! | `keepfails 0` alone | nothing: the load fails, and `play_within` answers `Err(PlayStop::Keeper)` |
//! | `api 0 pets {"bogus":1}` | `refused line 1 Unknown(bogus) at /bogus`, and the play ends with status 1 |
//! | `bogus 1` | `refused line 1 BadRecord at ~`, and the play ends with status 1 |
//! | `key 0 k v on`, `key 0 k v off` | `done`: a key that admits calls, and one that admits none |
//! | `plan 0 p 5:10 1000:0:DAY hello/v1` | `done`: a plan of one stage, 5 a second and 10 at once, 1,000 a day |
//! | `plan 0 p - - hello` | `refused line 1 BadRecord at ~`: a stage has its API before a slash |
//! | `grant 0 p k 2`, `usage 0 p k` | `done`, and `usage period=DAY:0 allowance=1002 used=0 remaining=1002` |
//! | `flush 0 hello v1` | `done`: the policies that are remembered at the stage are forgotten; or `refused NoStage` |
//! | `stage 0 hello v1 1 env=x` | `done`, and `$stageVariables.env` is `x` in the answers of the stage |
//!
//! What is promised: what is written is `Plays` of `specs/Play.antt` to the byte, a definition that speaks of every script,
//! or a front of it where a write is refused or memory is wanting; where the script's `keepfails` names the load, nothing is, and
//! just that is told (`opening_of`, `names_load`). `script_records` says which lines a script has and which records they are,
//! `specs/Printed.antt` and `specs/Calls.antt` what is printed. [`join`] puts parts of a line together. What is printed of a command
//! ([`reply_line`], [`refuse`]) serves the command `admin` too, and a line by itself ([`play_line`]) the command `load`, which makes up many.
#![tactic(auto)]

mod calls;
mod connections;
mod joining;
mod opening;
mod outcomes;
mod play;
mod printed;
mod stops;
mod turns;

pub use calls::{play_line, refuse};
pub use joining::join;
pub use play::play_within;
pub use printed::{full_line, reply_line};
pub use stops::PlayStop;
pub use turns::{End, Said};
