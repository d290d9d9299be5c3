// What a record does to the session, and what it prints.
ghost use Rattle.std.specs.Prelude.{◌≡◌, ◌^◌, ◌<◌, true, Ok, Err, Some, None, IfOk, MatchResult};
ghost use Rattle.play_script.specs.Printed.{refused_line as refused_line_of};
ghost use Rattle.play_script.specs.Play.{commanded as commanded_of, put as put_of, IsCall, Does, IsTurn};

use crate::connections::{post_bytes, talk};
use crate::outcomes::read_outcomes;
use crate::printed::{full_line, refused_line, reply_line};
use crate::turns::{End, Said};
use api_model::Api;
use book_rules::{Command, Event};
use gw_base::{Bytes, Memory, Shared, Text};
use play_session::{Reading, Session};
use script_records::{LineFault, Record, is_passed_over, record_in, take_document, take_text};
use std::alloc::Global;
use std::sync::Wait;

// Carries out a command, and prints its reply.
#[tactic(auto, unfolding(crate::specs::Play::commanded))]
fn command<R: Wait>(
    session: &mut Session<'_, R>,
    alloc: Global,
    moment: u64,
    command: Command,
) -> Result<Said, Memory>
    ensures does { IfOk result (λ said. commanded_of session.old.base session.old.history moment command
        ≡ record { history = session.new.history; text = said.text; ends = said.ends }) }
    ensures base { session.new.base ≡ session.old.base }
{
    match session.take(alloc, Event::Admin { moment, command })? {
        Ok(reply) => Ok(Said {
            text: reply_line(alloc, &reply)?,
            ends: None,
        }),
        Err(full) => Ok(Said {
            text: full_line(alloc, full)?,
            ends: Some(End::Full),
        }),
    }
}

/// The line of this number is refused, and nothing is carried out behind it.
pub fn refuse(alloc: Global, number: u64, fault: LineFault) -> Result<Said, Memory>
    ensures { IfOk result (λ said. said ≡ record { text = refused_line_of number fault; ends = Some End.Refused }) }
{
    Ok(Said {
        text: refused_line(alloc, number, fault)?,
        ends: Some(End::Refused),
    })
}

// Puts a definition, where it is taken.
fn put<R: Wait>(
    session: &mut Session<'_, R>,
    alloc: Global,
    number: u64,
    moment: u64,
    api: Text,
    taken: Result<Api, LineFault>,
) -> Result<Said, Memory>
    ensures does { IfOk result (λ said. put_of session.old.base number session.old.history moment api taken
        ≡ record { history = session.new.history; text = said.text; ends = said.ends }) }
    ensures base { session.new.base ≡ session.old.base }
{
    match taken {
        Ok(definition) => {
            let definition = Shared::new(alloc, definition)?;
            command(session, alloc, moment, Command::PutApi { api, definition })
        }
        Err(fault) => refuse(alloc, number, fault),
    }
}

// A connection whose outcomes have their form.
fn call<R: Wait>(
    session: &mut Session<'_, R>,
    alloc: Global,
    number: u64,
    reading: Reading,
    bytes: &[u8],
    outcomes: &[Bytes],
) -> Result<Said, Memory>
    ensures does { IfOk result (λ said. IsCall session.old.base number session.old.history reading.moment reading.word bytes.now outcomes.now (record { history = session.new.history; text = said.text; ends = said.ends })) }
    ensures base { session.new.base ≡ session.old.base }
{
    match read_outcomes(alloc, outcomes)? {
        Some(outcomes) => talk(session, alloc, reading, bytes, outcomes),
        None => refuse(alloc, number, LineFault::BadRecord),
    }
}

// Does what a record says.
fn carry_out<R: Wait>(
    session: &mut Session<'_, R>,
    alloc: Global,
    number: u64,
    found: Record,
) -> Result<Said, Memory>
    ensures does { IfOk result (λ said. Does session.old.base number session.old.history found (record { history = session.new.history; text = said.text; ends = said.ends })) }
    ensures base { session.new.base ≡ session.old.base }
{
    match found {
        Record::PutText {
            moment,
            api,
            template,
        } => {
            let taken = take_text(alloc, template.as_str())?;
            put(session, alloc, number, moment, api, taken)
        }
        Record::PutDocument {
            moment,
            api,
            document,
        } => {
            let taken = take_document(alloc, document.as_str())?;
            put(session, alloc, number, moment, api, taken)
        }
        Record::Ask {
            moment,
            command: asked,
        } => command(session, alloc, moment, asked),
        Record::Post {
            moment,
            word,
            api,
            stage,
            body,
        } => {
            let bytes = post_bytes(alloc, api.as_str(), stage.as_str(), body.as_str())?;
            talk(
                session,
                alloc,
                Reading { moment, word },
                bytes.as_str().as_bytes(),
                Vec::new(alloc),
            )
        }
        Record::Call {
            moment,
            word,
            bytes,
            outcomes,
        } => call(
            session,
            alloc,
            number,
            Reading { moment, word },
            bytes.as_slice(),
            outcomes.as_slice(),
        ),
    }
}

/// What the line of this number does, and what it prints.
pub fn play_line<R: Wait>(
    session: &mut Session<'_, R>,
    alloc: Global,
    number: u64,
    line: &[u8],
) -> Result<Said, Memory>
    ensures does { IfOk result (λ said. IsTurn session.old.base number session.old.history line.now (record { history = session.new.history; text = said.text; ends = said.ends })) }
    ensures base { session.new.base ≡ session.old.base }
{
    if is_passed_over(line) {
        return Ok(Said {
            text: Text::of(String::new(alloc)),
            ends: None,
        });
    }
    match record_in(alloc, line)? {
        Ok(found) => carry_out(session, alloc, number, found),
        Err(fault) => refuse(alloc, number, fault),
    }
}
