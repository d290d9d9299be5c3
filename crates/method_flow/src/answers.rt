// Answers, and their causes.
ghost use Rattle.std.specs.Prelude.{◌≡◌, IfOk};
ghost use Rattle.method_flow.specs.Answers.{message_body as message_body_of, gateway_answer as gateway_answer_of, gateway_made as gateway_made_of};

use call_facts::{Answer, Kind};
use gw_base::{Bytes, Memory, Seq, Text};
use std::alloc::Global;

/// An answer, and the kind of the gateway response that it is.
#[derive(Drop)]
pub struct Made {
    pub answer: Answer,
    pub cause: Option<Kind>,
}

/// A text that is written in the program.
pub(crate) fn text(alloc: Global, from: &str) -> Result<Text, Memory>
    ensures { IfOk result (λ made. made ≡ from.now) }
{
    Ok(Text::of(String::from_str(alloc, from)?))
}

// The body of a gateway response.
#[tactic(auto, unfolding(crate::specs::Answers::message_body))]
fn message_body(alloc: Global, kind: Kind) -> Result<Bytes, Memory>
    ensures { IfOk result (λ body. body ≡ message_body_of kind) }
{
    let mut body = String::from_str(alloc, "{\"message\":\"")?;
    body.push_str(kind.message())?;
    body.push_str("\"}")?;
    Ok(Bytes::of(body.into_bytes()))
}

#[tactic(auto, unfolding(crate::specs::Answers::gateway_answer))]
fn gateway_answer(alloc: Global, kind: Kind) -> Result<Answer, Memory>
    ensures { IfOk result (λ answer. answer ≡ gateway_answer_of kind) }
{
    let name = kind.to_string(alloc)?;
    let mut headers = Seq::new(alloc);
    headers.push((
        text(alloc, "content-type")?,
        text(alloc, "application/json")?,
    ))?;
    headers.push((text(alloc, "x-gateway-cause")?, Text::of(name)))?;
    Ok(Answer {
        status: kind.status(),
        headers,
        body: message_body(alloc, kind)?,
    })
}

/// The gateway's own answer of this kind, which names it (API Gateway Developer Guide, "Gateway responses").
pub fn answer_itself(alloc: Global, kind: Kind) -> Result<Made, Memory>
    ensures { IfOk result (λ made. made ≡ gateway_made_of kind) }
{
    Ok(Made {
        answer: gateway_answer(alloc, kind)?,
        cause: Some(kind),
    })
}
