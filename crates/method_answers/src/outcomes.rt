// What the outcome of an exchange is answered.
ghost use Rattle.std.specs.Prelude.{◌≡◌, ◌≢◌, ◌≤◌, ◌<◌, IfOk};
ghost use Rattle.std.specs.Option.{option_map};
ghost use Rattle.backend_core.specs.Exchanges.{HasStatus};
ghost use Rattle.integration_flow.specs.Choosing.{chosen, rules_of};
ghost use Rattle.integration_flow.specs.Stopping.{Flows};
ghost use Rattle.method_answers.specs.Outcomes.{mapped_made as mapped_made_of, outcome_made, proxied_made, reply_made as reply_made_of, ruled as ruled_of, stopped as stopped_of, kind_of as kind_of_stop};

use crate::calls::RoutedCall;
use crate::failing::failed_by;
use crate::plans::Exchange;
use api_model::ResponseRule;
use backend_core::Outcome;
use call_facts::{Answer, Kind, WireReply};
use gw_base::Memory;
use integration_flow::{FlowStop, choose_response, client_answer};
use method_flow::Made;
use std::alloc::Global;
use wire_text::proxy_answer;

// The kind that tells why an integration gives no answer.
fn kind_of(stop: FlowStop) -> Kind
    ensures { result ≡ kind_of_stop stop }
{
    match stop {
        FlowStop::Media => Kind::UnsupportedMediaType,
        FlowStop::Config | FlowStop::Memory => Kind::ApiConfigurationError,
    }
}

/// The answer to a call whose integration gives none.
pub(crate) fn answer_stopped(
    alloc: Global,
    call: &RoutedCall,
    stop: FlowStop,
) -> Result<Made, Memory>
    ensures { IfOk result (λ made. (made ≡ stopped_of call.now stop) × (stop ≢ FlowStop.Memory)) }
{
    match stop {
        FlowStop::Memory => Err(Memory),
        _ => failed_by(alloc, kind_of(stop), call.api, &call.facts),
    }
}

// By this rule.
fn answer_ruled(
    alloc: Global,
    call: &RoutedCall,
    rule: Option<&ResponseRule>,
    reply: &WireReply,
) -> Result<Answer, FlowStop>
    ensures { Flows (ruled_of call.now reply.now (option_map (λ r. r.now) rule.entry)) result }
{
    match rule {
        Some(rule) => client_answer(
            alloc,
            rule,
            call.request,
            call.target,
            &call.found,
            &call.facts,
            reply,
        ),
        None => Err(FlowStop::Config),
    }
}

/// The answer that the response rule for a reply's status makes of it.
#[tactic(auto, unfolding(crate::specs::Outcomes::mapped_made))]
pub(crate) fn answer_mapped(
    alloc: Global,
    call: &RoutedCall,
    reply: &WireReply,
) -> Result<Made, Memory>
    requires { (100 ≤ reply.now.status) × (reply.now.status < 1000) }
    ensures { IfOk result (λ made. made ≡ mapped_made_of call.now reply.now) }
{
    let rule = choose_response(call.api, call.method, reply.status);
    match answer_ruled(alloc, call, rule, reply) {
        Ok(answer) => Ok(Made {
            answer,
            cause: None,
        }),
        Err(stop) => answer_stopped(alloc, call, stop),
    }
}

fn answer_proxied(alloc: Global, reply: &WireReply) -> Result<Made, Memory>
    ensures { IfOk result (λ made. made ≡ proxied_made reply.now) }
{
    Ok(Made {
        answer: proxy_answer(alloc, reply)?,
        cause: None,
    })
}

fn answer_reply(alloc: Global, exchange: &Exchange, reply: &WireReply) -> Result<Made, Memory>
    requires { (100 ≤ reply.now.status) × (reply.now.status < 1000) }
    ensures { IfOk result (λ made. made ≡ reply_made_of exchange.now.passes exchange.now.call reply.now) }
{
    if exchange.passes {
        answer_proxied(alloc, reply)
    } else {
        answer_mapped(alloc, &exchange.call, reply)
    }
}

impl<'a> Exchange<'a> {
    /// The answer to the call, by the outcome of the exchange (API Gateway Developer Guide, "Integration response" and "Gateway
    /// responses").
    ///
    /// # Errors
    ///
    /// [`Memory`] where there is no memory for the answer, and where the exchange has no outcome since memory was wanting.
    pub fn answer(&self, alloc: Global, outcome: &Outcome) -> Result<Made, Memory>
        requires { HasStatus outcome.now }
        ensures { IfOk result (λ made. (made ≡ outcome_made self.now.passes self.now.call outcome.now) × (outcome.now ≢ Outcome.Memory)) }
    {
        match outcome {
            Outcome::Reply(reply) => answer_reply(alloc, self, reply),
            Outcome::Failed => failed_by(
                alloc,
                Kind::IntegrationFailure,
                self.call.api,
                &self.call.facts,
            ),
            Outcome::TimedOut => failed_by(
                alloc,
                Kind::IntegrationTimeout,
                self.call.api,
                &self.call.facts,
            ),
            Outcome::Memory => Err(Memory),
        }
    }
}
