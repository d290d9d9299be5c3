// The outcomes of exchanges, as a script tells them.
ghost use Rattle.std.specs.Prelude.{◌≡◌, ◌≢◌, ◌++◌, [], All, map, false, Ok, IfOk, MatchOption};
ghost use Rattle.std.specs.Bool.{MatchBool};
ghost use Rattle.backend_core.specs.Script.{HasReplyStatus, outcome_of};
ghost use Rattle.http_edge.specs.Replies.{IsReply};
ghost use Rattle.play_script.specs.Calls.{IsWhole, IsNoWhole, IsNoReply, IsOutcome, IsNoOutcome, AreOutcomes, BreaksOutcomes};

use backend_core::Scripted;
use call_facts::WireReply;
use gw_base::{Bytes, Memory};
use http_edge::{Buffer, EdgeFault, next_reply};
use play_session::SliceSource;
use std::alloc::Global;

// Whether nothing is left behind a reply.
fn is_spent(rest: &Buffer, source: &SliceSource) -> bool
    ensures { MatchBool result (rest.now.bytes ++ source.now ≡ []) (rest.now.bytes ++ source.now ≢ []) }
{
    rest.is_empty() && source.is_empty()
}

// The reply whose bytes a field is, whole and with nothing behind it.
fn read_whole(alloc: Global, field: &[u8]) -> Result<Option<WireReply>, Memory>
    ensures { IfOk result (λ read. MatchOption read (IsNoWhole field.now) (λ reply. IsReply false field.now (Ok reply) [])) }
{
    let mut source = SliceSource::new(field);
    let mut rest = Buffer::new(alloc);
    match next_reply(alloc, &mut source, &mut rest, false) {
        Ok(reply) => {
            if is_spent(&rest, &source) {
                Ok(Some(reply))
            } else {
                Ok(None)
            }
        }
        Err(EdgeFault::Memory) => Err(Memory),
        Err(EdgeFault::ReadFault) => Err(Memory),
        Err(_) => Ok(None),
    }
}

// The same, of a status from 200 to 999.
fn read_reply(alloc: Global, field: &[u8]) -> Result<Option<WireReply>, Memory>
    ensures { IfOk result (λ read. MatchOption read (IsNoReply field.now) (λ reply. IsWhole field.now reply)) }
{
    let Some(reply) = read_whole(alloc, field)? else {
        return Ok(None);
    };
    if reply.status < 200 {
        return Ok(None);
    }
    if reply.status > 999 {
        return Ok(None);
    }
    Ok(Some(reply))
}

// The outcome that a field tells.
fn read_outcome(alloc: Global, field: &[u8]) -> Result<Option<Scripted>, Memory>
    ensures { IfOk result (λ read. MatchOption read (IsNoOutcome field.now) (λ told. IsOutcome field.now (outcome_of told) × HasReplyStatus told)) }
{
    if field == b"!failed".as_slice() {
        return Ok(Some(Scripted::Failed));
    }
    if field == b"!lapsed".as_slice() {
        return Ok(Some(Scripted::TimedOut));
    }
    match read_reply(alloc, field)? {
        Some(reply) => Ok(Some(Scripted::Reply(reply))),
        None => Ok(None),
    }
}

/// The outcomes that fields tell, one each; none where one of them tells none.
pub fn read_outcomes(alloc: Global, fields: &[Bytes]) -> Result<Option<Vec<Scripted>>, Memory>
    ensures { IfOk result (λ read. MatchOption read (BreaksOutcomes fields.now) (λ made. AreOutcomes fields.now (map outcome_of made.items) × All HasReplyStatus made.items)) }
{
    let mut made = Vec::new(alloc);
    let mut rest = fields;
    while let [field, more @ ..] = rest {
        match read_outcome(alloc, field.as_slice())? {
            Some(told) => made.push(told)?,
            None => return Ok(None),
        }
        rest = more;
    }
    Ok(Some(made))
}
