// A load, line by line.
ghost use Rattle.std.specs.Prelude.{◌≡◌, ◌≢◌, ◌+◌, ◌<◌, ◌≤◌, ◌^◌, ℕ, List, [], None, length, true, Err, IfOk, OnErr, IsErrOf, IsNone};
ghost use Rattle.std.specs.Io.KnownBytes.{Appends};
ghost use Rattle.gw_base.specs.Outside.{Rose};
ghost use Rattle.script_records.specs.Coding.{lines_of};
ghost use Rattle.play_script.specs.Play.{SaysFront, is_command_status, status_at};
ghost use Rattle.play_session.specs.Sessions.{base_of};
ghost use Rattle.load_command.specs.Lines.{call_lines};
ghost use Rattle.load_command.specs.Loading.{Loads, LoadedFront, LoadedWithin, load_lines};

use crate::lines::{call_line, first_lines};
use crate::summary::sum_up;
use book_rules::Limits;
use gw_base::{Memory, Sink, SplitMix, Text, Words, write_all};
use play_script::{End, PlayStop, play_line};
use play_session::{Session, SessionFault};
use script_records::first_line;
use std::alloc::Global;
use std::sync::Wait;

/// Where lines ended: the number of the next line, and the line that ended the load with what it printed, where one did.
#[derive(Drop)]
struct Reached {
    next: u64,
    stopped: Option<(Text, End)>,
}

/// What is printed of a load, and the status.
#[derive(Drop)]
struct Told {
    text: Text,
    status: u8,
}

fn status(end: End) -> u8
    ensures value { result ≡ status_at end }
    ensures known { is_command_status result ≡ true }
{
    match end {
        End::Refused => 1,
        End::Full => 4,
    }
}

// Plays the lines of a script, from number 1 on, and prints nothing.
fn play_lines<R: Wait>(
    alloc: Global,
    session: &mut Session<'_, R>,
    lines: &[u8],
) -> Result<Reached, Memory>
    requires { length lines.now < 2 ^ 32 }
    ensures all { IfOk result (λ r. Loads session.old.base 1 session.old.history (lines_of lines.now) (record { history = session.new.history; stopped = r.stopped })) }
    ensures next { IfOk result (λ r. r.stopped ≡ None → r.next ≡ 1 + length (lines_of lines.now)) }
    ensures within { IfOk result (λ r. r.next ≤ 2 ^ 33) }
    ensures base { session.new.base ≡ session.old.base }
{
    let mut rest = lines;
    let mut number: u64 = 1;
    'lines: loop {
        let (line, more) = first_line(rest);
        let said = play_line(session, alloc, number, line)?;
        if let Some(end) = said.ends {
            return Ok(Reached {
                next: number,
                stopped: Some((said.text, end)),
            });
        }
        number += 1;
        let Some(next) = more else {
            return Ok(Reached {
                next: number,
                stopped: None,
            });
        };
        rest = next;
    }
}

// Plays so many calls by a seed, the first on a line of this number, and prints nothing.
fn play_calls<R: Wait>(
    alloc: Global,
    session: &mut Session<'_, R>,
    first: u64,
    seed: u64,
    calls: u64,
) -> Result<Option<(Text, End)>, Memory>
    requires first { first ≤ 2 ^ 33 }
    requires calls { calls ≤ 300000 }
    ensures all { IfOk result (λ stopped. Loads session.old.base first session.old.history (call_lines seed 0 calls) (record { history = session.new.history; stopped = stopped })) }
    ensures base { session.new.base ≡ session.old.base }
{
    let mut words = SplitMix { state: seed };
    for number in 0..calls {
        let line = call_line(alloc, number, words.next())?;
        let said = play_line(session, alloc, first + number, line.as_str().as_bytes())?;
        if let Some(end) = said.ends {
            return Ok(Some((said.text, end)));
        }
    }
    Ok(None)
}

// Plays all lines of a load, and prints nothing.
fn play_all<R: Wait>(
    alloc: Global,
    session: &mut Session<'_, R>,
    seed: u64,
    calls: u64,
) -> Result<Option<(Text, End)>, Memory>
    requires { calls ≤ 300000 }
    ensures all { IfOk result (λ stopped. Loads session.old.base 1 session.old.history (load_lines seed calls) (record { history = session.new.history; stopped = stopped })) }
    ensures base { session.new.base ≡ session.old.base }
{
    let Reached { next, stopped } = play_lines(alloc, session, first_lines())?;
    match stopped {
        Some(stopped) => Ok(Some(stopped)),
        None => play_calls(alloc, session, next, seed, calls),
    }
}

// A session over empty tables, of whose keeper no call fails.
fn start<'r, R: Wait>(rt: &'r R, alloc: Global, limits: Limits) -> Result<Session<'r, R>, Memory>
    ensures { IfOk result (λ s. s ≡ record { base = base_of limits []; history = [] }) }
{
    match Session::start(rt, alloc, limits, Vec::new(alloc)) {
        Ok(session) => Ok(session),
        Err(SessionFault::Memory) => Err(Memory),
        // No call is told to fail.
        Err(SessionFault::Keeper) => unreachable!(),
    }
}

// What a load comes to.
fn loaded<R: Wait>(
    rt: &R,
    alloc: Global,
    limits: Limits,
    seed: u64,
    calls: u64,
) -> Result<Told, Memory>
    requires { calls ≤ 300000 }
    ensures all { IfOk result (λ told. LoadedWithin limits seed calls (record { text = told.text; status = told.status })) }
    ensures known { IfOk result (λ told. is_command_status told.status ≡ true) }
{
    let mut session = start(rt, alloc, limits)?;
    let stopped = play_all(alloc, &mut session, seed, calls);
    let book = session.close();
    match stopped? {
        Some((text, end)) => Ok(Told {
            text,
            status: status(end),
        }),
        None => Ok(Told {
            text: sum_up(alloc, &book, calls)?,
            status: 0,
        }),
    }
}

/// Plays a load of so many calls by a seed in a session of these limits, from empty tables, prints its summary, and answers the
/// status: 0, or that of the line that ended it, whose print stands in place of the summary.
///
/// # Errors
///
/// [`PlayStop::Output`] comes only where the output counted a fault, [`PlayStop::Memory`] where memory is wanting.
pub fn load_within<W: Sink, R: Wait>(
    rt: &R,
    alloc: Global,
    limits: Limits,
    seed: u64,
    calls: u64,
    output: &mut W,
) -> Result<u8, PlayStop>
    requires { calls ≤ 300000 }
    ensures all { IfOk result (λ status. (text : List ℕ) × LoadedWithin limits seed calls (record { text = text; status = status })
        × Appends (W.written output.old) (W.written output.new) text) }
    ensures known { IfOk result (λ status. is_command_status status ≡ true) }

    // Where the load is cut short, a front is written.
    ensures front { OnErr result (SaysFront (W.written output.old) (W.written output.new) (LoadedFront limits seed calls)) }
    ensures keeper { result ≢ Err PlayStop.Keeper }
    ensures output { IsErrOf result PlayStop.Output → Rose (W.faults output.old) (W.faults output.new) }
{
    let told = loaded(rt, alloc, limits, seed, calls)?;
    write_all(output, told.text.as_str().as_bytes())?;
    Ok(told.status)
}
