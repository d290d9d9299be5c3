// The connections of a script: their bytes, and their lines.
ghost use Rattle.std.specs.Prelude.{◌≡◌, [], ◌∷◌, ◌++◌, All, map, codes, IfOk, OnOk};
ghost use Rattle.std.specs.List.{concat};
ghost use Rattle.std.specs.String.{string_bytes};
ghost use Rattle.backend_core.specs.Script.{HasReplyStatus, outcome_of};
ghost use Rattle.gate_walk.specs.Printed.{ended_name};
ghost use Rattle.record_fields.specs.Writing.{coded};
ghost use Rattle.play_script.specs.Calls.{post_target as post_target_of, post_fields as post_fields_of, post_bytes as post_bytes_of, answer_line as answer_line_of, full_lines as full_lines_of, connection_lines as connection_lines_of, sent_lines as sent_lines_of, end_of as end_of_connection};
ghost use Rattle.play_script.specs.Play.{IsTalk};
ghost use Rattle.play_script.specs.Printed.{line_feed};

use crate::printed::full_line;
use crate::turns::{End, Said};
use backend_core::{Scripted, WireRequest};
use gw_base::{Memory, Text};
use play_session::{Ended, Reading, Session, SessionFull};
use record_fields::append_coded;
use std::alloc::Global;
use std::sync::Wait;

// The room that a text begins with, enough for most posts and for the lines of most connections; it grows where it is not.
const ROOM: usize = 256;

// Appends the target of a `post`.
#[tactic(auto, unfolding(crate::specs::Calls::post_target))]
fn append_target(text: &mut String, api: &str, stage: &str) -> Result<(), Memory>
    ensures { OnOk result (string_bytes text.new ≡ string_bytes text.old ++ post_target_of api.now stage.now) }
{
    text.push_str("POST /")?;
    text.push_str(api)?;
    text.push_str("/")?;
    text.push_str(stage)?;
    Ok(())
}

// Appends its fields, of a body of this length.
#[tactic(auto, unfolding(crate::specs::Calls::post_fields))]
fn append_fields(text: &mut String, length: usize) -> Result<(), Memory>
    ensures { OnOk result (string_bytes text.new ≡ string_bytes text.old ++ post_fields_of length) }
{
    write!(
        text,
        " HTTP/1.1\r\nhost: localhost\r\ncontent-length: {length}\r\n\r\n"
    )?;
    Ok(())
}

/// The bytes of a `post`.
pub fn post_bytes(alloc: Global, api: &str, stage: &str, body: &str) -> Result<Text, Memory>
    ensures { IfOk result (λ bytes. bytes ≡ post_bytes_of api.now stage.now body.now) }
{
    let mut text = String::with_capacity(alloc, ROOM)?;
    append_target(&mut text, api, stage)?;
    append_fields(&mut text, body.len())?;
    text.push_str(body)?;
    Ok(Text::of(text))
}

// Appends a line of some bytes, behind a word.
fn append_bytes(text: &mut String, word: &str, bytes: &[u8]) -> Result<(), Memory>
    ensures { OnOk result (string_bytes text.new ≡ string_bytes text.old ++ concat (word.now ∷ coded bytes.now ∷ line_feed ∷ [])) }
{
    text.push_str(word)?;
    append_coded(text, bytes)?;
    text.push_str("\n")?;
    Ok(())
}

// Appends the lines of the requests that were sent to backends.
fn append_sent(text: &mut String, requests: &[WireRequest]) -> Result<(), Memory>
    ensures { OnOk result (string_bytes text.new ≡ string_bytes text.old ++ sent_lines_of requests.now) }
{
    for request in requests {
        append_bytes(text, "sent ", request.bytes.as_slice())?;
    }
    Ok(())
}

// Appends the line of all bytes that were written, where there are any.
fn append_answer(text: &mut String, written: &[u8]) -> Result<(), Memory>
    ensures { OnOk result (string_bytes text.new ≡ string_bytes text.old ++ answer_line_of written.now) }
{
    match written {
        [] => Ok(()),
        [_, ..] => append_bytes(text, "answer ", written),
    }
}

// Appends the line that tells how a connection ended.
fn append_end(text: &mut String, ended: Ended) -> Result<(), Memory>
    ensures { OnOk result (string_bytes text.new ≡ string_bytes text.old ++ concat (codes "ended " ∷ ended_name ended ∷ line_feed ∷ [])) }
{
    writeln!(text, "ended {ended}")?;
    Ok(())
}

// Appends the line that ends a play where the session is full.
fn append_full(alloc: Global, text: &mut String, ended: Ended) -> Result<(), Memory>
    ensures { OnOk result (string_bytes text.new ≡ string_bytes text.old ++ full_lines_of ended) }
{
    match ended {
        Ended::SessionFull { entries, bytes } => {
            let line = full_line(alloc, SessionFull { entries, bytes })?;
            text.push_str(line.as_str())?;
            Ok(())
        }
        _ => Ok(()),
    }
}

#[tactic(auto, unfolding(crate::specs::Calls::connection_lines))]
fn connection_lines(
    alloc: Global,
    requests: &[WireRequest],
    written: &[u8],
    ended: Ended,
) -> Result<Text, Memory>
    ensures { IfOk result (λ lines. lines ≡ connection_lines_of requests.now written.now ended) }
{
    let mut text = String::with_capacity(alloc, ROOM)?;
    append_sent(&mut text, requests)?;
    append_answer(&mut text, written)?;
    append_end(&mut text, ended)?;
    append_full(alloc, &mut text, ended)?;
    Ok(Text::of(text))
}

// A play ends behind a connection on which the session was full.
fn end_of(ended: Ended) -> Option<End>
    ensures { result ≡ end_of_connection ended }
{
    match ended {
        Ended::SessionFull { .. } => Some(End::Full),
        // Of the others, those of a read, a write or want of memory don't come in a play.
        _ => None,
    }
}

/// Serves a connection, whose exchanges with backends come to these outcomes, and prints what was sent to these, what was written
/// on it, and how it ended.
pub fn talk<R: Wait>(
    session: &mut Session<'_, R>,
    alloc: Global,
    reading: Reading,
    bytes: &[u8],
    outcomes: Vec<Scripted>,
) -> Result<Said, Memory>
    requires statuses { All HasReplyStatus outcomes.items }
    ensures does { IfOk result (λ said. IsTalk session.old.base session.old.history reading.moment reading.word bytes.now (map outcome_of outcomes.items) (record { history = session.new.history; text = said.text; ends = said.ends })) }
    ensures base { session.new.base ≡ session.old.base }
{
    let talk = session.connect(alloc, reading, bytes, outcomes)?;
    Ok(Said {
        text: connection_lines(
            alloc,
            talk.sent.as_slice(),
            talk.written.as_slice(),
            talk.ended,
        )?,
        ends: end_of(talk.ended),
    })
}
