// What a template of the command `render` sees.
ghost use Rattle.std.specs.Prelude.{◌≡◌, IfOk};
ghost use Rattle.gateway_cli.specs.Requests.{render_request as render_request_of, render_facts as render_facts_of, no_variables as no_variables_of};

use call_facts::{CallFacts, Request, Vars};
use gw_base::{Bytes, Memory, Seq, Shared, Text};
use std::alloc::Global;

fn text(alloc: Global, from: &str) -> Result<Text, Memory>
    ensures { IfOk result (λ made. made ≡ from.now) }
{
    Ok(Text::of(String::from_str(alloc, from)?))
}

fn no_variables(alloc: Global) -> Result<Shared<Vars>, Memory>
    ensures { IfOk result (λ variables. variables ≡ no_variables_of) }
{
    Shared::new(
        alloc,
        Vars {
            pairs: Seq::new(alloc),
        },
    )
}

/// The request of the command `render`.
#[tactic(auto, unfolding(crate::specs::Requests::render_request))]
pub fn render_request(alloc: Global, body: &[u8]) -> Result<Request, Memory>
    ensures { IfOk result (λ request. request ≡ render_request_of body.now) }
{
    Ok(Request {
        method: text(alloc, "POST")?,
        target: text(alloc, "/render/render")?,
        http10: false,
        headers: Seq::new(alloc),
        body: Bytes::of(Vec::from_slice(alloc, body)?),
    })
}

/// What is known of its call.
#[tactic(auto, unfolding(crate::specs::Requests::render_facts))]
pub fn render_facts(alloc: Global) -> Result<CallFacts, Memory>
    ensures { IfOk result (λ facts. facts ≡ render_facts_of) }
{
    Ok(CallFacts {
        api: text(alloc, "render")?,
        stage: text(alloc, "render")?,
        place: 0,
        at: 0,
        deployment: 1,
        canary: false,
        variables: no_variables(alloc)?,
        resource: Text::of(String::new(alloc)),
        key: None,
        policy: None,
        error: None,
    })
}
