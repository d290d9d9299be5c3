//! The commands of the program, and the one call that carries them out.
//!
//! [`run`] takes the words behind the program's name, an input, an output and an outside, and answers the program's status. What
//! the words ask for is read once, by `command_words`; where memory is wanting for that, nothing is written.
//! `help` prints the commands, and `version` the version of the program and that of its stores.
//! `play` reads a script from the input and plays it over an empty book, as `play_script` says it; `render TEMPLATE BODY`
//! prints what the template of the one file gives over the body of the other; `check FILE` tells whether the file is a
//! definition of an API; `admin STORE` carries out the commands that stand on the input over the tables of a store, as
//! `admin_command` says it; `load SEED N` plays so many calls that a seed makes up, as `load_command` says it; `serve STORE PORT LANES` serves sessions over so many lanes at a port of the loopback and over the
//! tables of a store, one behind another where each is full, as `serve_command` says it, and prints a line for each.
//!
//! ```text
//! let status = run(rt, alloc, &words, &mut input, &mut output, &mut outside);
//! ```
//!
//! | `render` of this template over the body `Ann` | prints |
//! |---|---|
//! | `Hi $input.body!` | `Hi Ann!`, and no line feed |
//! | `#set($a=7/2)$a#set($b=7/0)$b` | `3$b` |
//! | `#if($a)` | `refused Unclosed(0) at ~`, with status 1 |
//! | `$context.stage`, `$input.json('$.a')` | `render`; `""`, since the body is no document |
//! | one of 1,000,001 steps | `stop Steps`, with status 1 |
//! | a file that is not there | `fault file`, with status 3 |
//!
//! | `check` of this document | prints |
//! |---|---|
//! | `{"version":1,"resources":{}}` | `ok resources=0 methods=0 models=0` |
//! | `{"version":1,"a b":1}` | `refused Unknown(a%20b) at /a%20b`, with status 1 |
//!
//! | `admin` of a store, with these lines on the input | prints |
//! |---|---|
//! | `text 0 hello Hi!`, `deploy 0 hello` | `done`, `deployed 1` |
//! | `key 0 k v on`, `plan 0 p - 5:0:DAY`, `join 0 p k` | `done` for each |
//! | `usage 0 p k` behind them | `usage period=DAY:0 allowance=5 used=0 remaining=5` |
//! | `post 0 0 hello v1 Ann` | `refused line 1 BadRecord at ~`, with status 1 |
//! | of a store that can't be opened | `fault keeper`, with status 3 |
//!
//! | `serve` of | prints |
//! |---|---|
//! | `orders 8080 2`, where each lane had one call | `session entries=4 calls=2 admitted=0 throttled=0 quota=0 notkept=0` |
//! | the same, where the session got full | that line, and behind it what the next session prints |
//! | the same, where a look for a connection failed | that line, and `fault port`, with status 3 |
//! | a store whose first row of deployments is none that can be | `refused BadStore(deployments,0)`, with status 1 |
//! | a store that can't be read, a port that can't be had | `fault keeper`, `fault port`, with status 3 |
//! | `orders 0 2`, `orders 65536 2`, `orders 8080 9`, `-orders 8080 2` | `usage`, with status 2 |
//!
//! What is promised: of every command but `admin` and `serve`, what `run` writes and answers is the outcome (`specs/Commands.antt`)
//! of what its words ask for (`command_of` of `command_words`), of its input and of the files, a definition that speaks of every
//! script (`Plays` of `play_script`), of every two files (`specs/Render.antt`) and of every document (`specs/Check.antt`) to the
//! byte, or a front of it where memory is wanting or the input, the output or a file fails; the program tells such a fault only
//! where a count of faults rose in the call, or where the script tells its keeper's load to fail. Of `serve`, what it writes and
//! answers is that of sessions over the store's tables, each behind a full one, or of a bad row of them (`Ends` of
//! `serve_command`); a fault comes only where a count of the outside or of the output rose, or a next session did not start,
//! behind what the sessions wrote (`ServeFaulted` of `specs/Top.antt`). All that the outside lent is given back at every status.
//!
//! Of `admin`, what it writes and answers is what the lines come to over the store's tables, or a bad row of them
//! (`specs/Admin.antt`), and where it is cut short some of the lines, from the first on, were carried out.
//!
//! Left out: what is written where memory is wanting in `serve`.
#![tactic(auto)]

mod about;
mod administering;
mod check;
mod command;
mod files;
pub mod laws;
mod limits;
mod loading;
mod program;
mod render;
mod requests;
mod say;
mod serving;
mod shown;
mod stopped;

pub use about::HELP;
pub use outside_core::{MemOutside, MemStore, Outside};
pub use play_script::{PlayStop, play_within};
pub use program::run;
