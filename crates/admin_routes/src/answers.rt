// The answers to administration requests.
ghost use Rattle.std.specs.Prelude.{◌≡◌, IfOk};
ghost use Rattle.std.specs.String.{string_bytes};
ghost use Rattle.admin_routes.specs.Answers.{json_answer as json_answer_of, json_made as json_made_of, json_of as json_of_text, refused_made, replied_made, reply_status as reply_status_of, reply_text as reply_text_of};

use book_rules::Reply;
use call_facts::Answer;
use gateway_vars::json_string;
use gw_base::{Bytes, Memory, Seq, Text};
use method_flow::Made;
use std::alloc::Global;

fn text(alloc: Global, from: &str) -> Result<Text, Memory>
    ensures { IfOk result (λ made. made ≡ from.now) }
{
    Ok(Text::of(String::from_str(alloc, from)?))
}

// An object with one member.
#[tactic(auto, unfolding(crate::specs::Answers::json_of))]
fn json_of(alloc: Global, name: &str, member: &str) -> Result<Bytes, Memory>
    ensures { IfOk result (λ body. body ≡ json_of_text name.now member.now) }
{
    let mut body = String::from_str(alloc, "{\"")?;
    body.push_str(name)?;
    body.push_str("\":")?;
    let member = json_string(alloc, member)?;
    body.push_str(member.as_str())?;
    body.push_str("}")?;
    Ok(Bytes::of(body.into_bytes()))
}

#[tactic(auto, unfolding(crate::specs::Answers::json_answer))]
fn json_answer(alloc: Global, status: u16, body: Bytes) -> Result<Answer, Memory>
    ensures { IfOk result (λ answer. answer ≡ json_answer_of status body) }
{
    let mut headers = Seq::new(alloc);
    headers.push((
        text(alloc, "content-type")?,
        text(alloc, "application/json")?,
    ))?;
    Ok(Answer {
        status,
        headers,
        body,
    })
}

fn json_made(alloc: Global, status: u16, body: Bytes) -> Result<Made, Memory>
    ensures { IfOk result (λ made. made ≡ json_made_of status body) }
{
    Ok(Made {
        answer: json_answer(alloc, status, body)?,
        cause: None,
    })
}

/// The answer of this status, where no command was asked of the book.
pub(crate) fn answer_refused(alloc: Global, status: u16, why: &str) -> Result<Made, Memory>
    ensures { IfOk result (λ made. made ≡ refused_made status why.now) }
{
    let body = json_of(alloc, "refused", why)?;
    json_made(alloc, status, body)
}

// The line of a command's reply, without its end.
fn reply_text(alloc: Global, reply: &Reply) -> Result<Text, Memory>
    ensures { IfOk result (λ line. line ≡ reply_text_of reply.now) }
{
    match reply {
        Reply::Done => text(alloc, "done"),
        Reply::Deployed(number) => {
            let mut line = String::from_str(alloc, "deployed ")?;
            let number = number.to_string(alloc)?;
            line.push_str(number.as_str())?;
            Ok(Text::of(line))
        }
        Reply::Refused(refusal) => {
            let mut line = String::from_str(alloc, "refused ")?;
            let name = refusal.to_string(alloc)?;
            line.push_str(name.as_str())?;
            Ok(Text::of(line))
        }
        Reply::Usage(usage) => Ok(Text::of(usage.to_string(alloc)?)),
        Reply::Store => text(alloc, "store"),
        // These are replied to no command.
        Reply::NoStage
        | Reply::Entered(_)
        | Reply::Remembered(_)
        | Reply::NotRemembered
        | Reply::Learned
        | Reply::Admitted { .. }
        | Reply::InvalidKey
        | Reply::Throttled { .. }
        | Reply::QuotaExceeded { .. }
        | Reply::Left { .. } => text(alloc, ""),
    }
}

fn reply_status(reply: &Reply) -> u16
    ensures { result ≡ reply_status_of reply.now }
{
    match reply {
        Reply::Done | Reply::Deployed(_) | Reply::Usage(_) => 200,
        Reply::Refused(_) => 409,
        Reply::Store
        | Reply::NoStage
        | Reply::Entered(_)
        | Reply::Remembered(_)
        | Reply::NotRemembered
        | Reply::Learned
        | Reply::Admitted { .. }
        | Reply::InvalidKey
        | Reply::Throttled { .. }
        | Reply::QuotaExceeded { .. }
        | Reply::Left { .. } => 500,
    }
}

/// The answer that tells what the book replied to a command.
pub fn answer_reply(alloc: Global, reply: &Reply) -> Result<Made, Memory>
    ensures { IfOk result (λ made. made ≡ replied_made reply.now) }
{
    let line = reply_text(alloc, reply)?;
    let body = json_of(alloc, "reply", line.as_str())?;
    json_made(alloc, reply_status(reply), body)
}
