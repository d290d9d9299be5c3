// A script, line by line.
ghost use Rattle.std.specs.Prelude.{◌≡◌, ◌++◌, ◌+◌, ◌<◌, ◌^◌, ℕ, List, [], true, false, length, IfOk, IfSome, OnOk, OnErr, IsErrOf};
ghost use Rattle.std.specs.Io.KnownBytes.{Appends};
ghost use Rattle.std.specs.String.{string_bytes};
ghost use Rattle.gw_base.specs.Outside.{HasWriteCause, Rose};
ghost use Rattle.gw_base.specs.Whole.{AppendsFront};
ghost use Rattle.script_records.specs.Coding.{lines_left, lines_of};
ghost use Rattle.play_script.specs.Gathered.{Gathers};
ghost use Rattle.play_script.specs.Play.{IsTurn, Plays, PlaysFront, PlaysOpened, OpenedFront, opening_of, names_load, status_at, SaysFront, is_command_status};

use crate::calls::play_line;
use crate::opening::open;
use crate::stops::PlayStop;
use crate::turns::End;
use book_rules::Limits;
use gw_base::{Memory, Sink, WriteStop, write_all};
use play_session::Session;
use script_records::first_line;
use std::alloc::Global;
use std::sync::Wait;

// So many bytes of what lines say are gathered before they are written: a write of each line by itself costs as much as a
// tenth of what the line does.
const ENOUGH: usize = 8_192;

fn status(end: End) -> u8
    ensures value { result ≡ status_at end }
    ensures known { is_command_status result ≡ true }
{
    match end {
        End::Refused => 1,
        End::Full => 4,
    }
}

// Plays a line and gathers what it says; answers why the play ends there, where it does. Where memory is wanting, what was
// gathered before stays.
fn gather_line<R: Wait>(
    alloc: Global,
    session: &mut Session<'_, R>,
    gathered: &mut String,
    number: u64,
    line: &[u8],
) -> Result<Option<End>, Memory>
    ensures said { IfOk result (λ ends. (text : List ℕ) × IsTurn session.old.base number session.old.history line.now (record { history = session.new.history; text = text; ends = ends })
        × (string_bytes gathered.new ≡ string_bytes gathered.old ++ text)) }
    ensures kept { OnErr result (string_bytes gathered.new ≡ string_bytes gathered.old) }
    ensures base { session.new.base ≡ session.old.base }
{
    let said = play_line(session, alloc, number, line)?;
    gathered.push_str(said.text.as_str())?;
    Ok(said.ends)
}

// Writes what is gathered, where that is enough.
fn write_enough<W: Sink>(output: &mut W, gathered: &mut String) -> Result<(), WriteStop>
    ensures all { OnOk result (Gathers (W.written output.old) (W.written output.new) (string_bytes gathered.new) (string_bytes gathered.old)) }
    ensures front { OnErr result (AppendsFront (W.written output.old) (W.written output.new) (string_bytes gathered.old)) }
    ensures cause { HasWriteCause (W.faults output.old) (W.faults output.new) result }
{
    if gathered.len() >= ENOUGH {
        write_all(output, gathered.as_bytes())?;
        gathered.clear();
    }
    Ok(())
}

// Plays lines, the first of which has this number, and gathers what they say; writes as it goes on, and leaves what is not
// written yet, where memory is wanting too.
fn gather_lines<W: Sink, R: Wait>(
    alloc: Global,
    session: &mut Session<'_, R>,
    output: &mut W,
    gathered: &mut String,
    number: u64,
    lines: &[u8],
) -> Result<Result<u8, Memory>, WriteStop>
    requires number { number + length lines.now < 2 ^ 64 }
    requires first { session.old.history ≡ [] }
    requires empty { string_bytes gathered.old ≡ [] }
    ensures all { IfOk result (λ played. IfOk played (λ status. (text : List ℕ) × Plays session.old.base number [] (lines_of lines.now) (record { text = text; status = status })
        × Gathers (W.written output.old) (W.written output.new) (string_bytes gathered.new) text)) }
    ensures known { IfOk result (λ played. IfOk played (λ status. is_command_status status ≡ true)) }
    ensures wanting { IfOk result (λ played. OnErr played ((front : List ℕ) × PlaysFront session.old.base number [] (lines_of lines.now) front
        × Gathers (W.written output.old) (W.written output.new) (string_bytes gathered.new) front)) }
    ensures front { OnErr result (SaysFront (W.written output.old) (W.written output.new) (PlaysFront session.old.base number [] (lines_of lines.now))) }
    ensures cause { HasWriteCause (W.faults output.old) (W.faults output.new) result }
{
    let mut rest = lines;
    let mut number = number;
    'lines: loop {
        let (line, more) = first_line(rest);
        match gather_line(alloc, session, gathered, number, line) {
            Ok(None) => {}
            Ok(Some(end)) => return Ok(Ok(status(end))),
            Err(memory) => return Ok(Err(memory)),
        }
        let Some(next) = more else {
            return Ok(Ok(0));
        };
        write_enough(output, gathered)?;
        rest = next;
        number += 1;
    }
}

// Plays lines, the first of which has this number. What they said is written too where memory is wanting.
fn play_lines<W: Sink, R: Wait>(
    alloc: Global,
    session: &mut Session<'_, R>,
    output: &mut W,
    number: u64,
    lines: &[u8],
) -> Result<u8, WriteStop>
    requires number { number + length lines.now < 2 ^ 64 }
    requires first { session.old.history ≡ [] }
    ensures all { IfOk result (λ status. (text : List ℕ) × Plays session.old.base number [] (lines_of lines.now) (record { text = text; status = status })
        × Appends (W.written output.old) (W.written output.new) text) }
    ensures known { IfOk result (λ status. is_command_status status ≡ true) }
    ensures front { OnErr result (SaysFront (W.written output.old) (W.written output.new) (PlaysFront session.old.base number [] (lines_of lines.now))) }
    ensures cause { HasWriteCause (W.faults output.old) (W.faults output.new) result }
{
    let mut gathered = String::new(alloc);
    let played = gather_lines(alloc, session, output, &mut gathered, number, lines)?;
    write_all(output, gathered.as_bytes())?;
    Ok(played?)
}

// Plays lines, where there are any.
fn play_left<W: Sink, R: Wait>(
    alloc: Global,
    session: &mut Session<'_, R>,
    output: &mut W,
    number: u64,
    left: Option<&[u8]>,
) -> Result<u8, WriteStop>
    requires number { IfSome left (λ lines. number + length lines.now < 2 ^ 64) }
    requires first { session.old.history ≡ [] }
    ensures all { IfOk result (λ status. (text : List ℕ) × Plays session.old.base number [] (lines_left left.entry) (record { text = text; status = status })
        × Appends (W.written output.old) (W.written output.new) text) }
    ensures known { IfOk result (λ status. is_command_status status ≡ true) }
    ensures front { OnErr result (SaysFront (W.written output.old) (W.written output.new) (PlaysFront session.old.base number [] (lines_left left.entry))) }
    ensures cause { HasWriteCause (W.faults output.old) (W.faults output.new) result }
{
    match left {
        Some(lines) => play_lines(alloc, session, output, number, lines),
        None => Ok(0),
    }
}

/// Plays a script in a session of these limits, from empty tables, and answers the status: 0 at its end, 1 at a line that
/// is refused, 4 where the session is full.
///
/// # Errors
///
/// [`PlayStop::Keeper`] comes exactly where the script's `keepfails` names the load, unless memory is wanting; nothing is
/// written then. [`PlayStop::Output`] comes only where the output counted a fault, and the load is not named.
pub fn play_within<W: Sink, R: Wait>(
    rt: &R,
    alloc: Global,
    limits: Limits,
    script: &[u8],
    output: &mut W,
) -> Result<u8, PlayStop>
    requires { length script.now < 2 ^ 63 }
    ensures all { IfOk result (λ status. (text : List ℕ) × PlaysOpened limits (opening_of script.now) (record { text = text; status = status })
        × Appends (W.written output.old) (W.written output.new) text) }
    ensures known { IfOk result (λ status. is_command_status status ≡ true) }

    // Where the play is cut short, a front is written.
    ensures front { OnErr result (SaysFront (W.written output.old) (W.written output.new) (OpenedFront limits (opening_of script.now))) }
    ensures keeper { IsErrOf result PlayStop.Keeper → names_load (opening_of script.now) ≡ true }
    ensures output { IsErrOf result PlayStop.Output → Rose (W.faults output.old) (W.faults output.new) }
    ensures loaded { IsErrOf result PlayStop.Output → names_load (opening_of script.now) ≡ false }
{
    let opening = open(alloc, script)?;
    let mut session = Session::start(rt, alloc, limits, opening.fails)?;
    let played = play_left(alloc, &mut session, output, opening.number, opening.lines);
    let _ = session.close();
    Ok(played?)
}
