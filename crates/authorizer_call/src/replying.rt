// What an authorizer's reply comes to.
ghost use Rattle.std.specs.Prelude.{◌≡◌, ◌==◌, IsErrOf};
ghost use Rattle.policy_core.specs.Decisions.{decision};
ghost use Rattle.authorizer_call.specs.Outcomes.{IsFailure, allows, if_taken, policy_of as policy_of_outcome, read_of};
ghost use Rattle.authorizer_call.specs.Views.{Tells};

use crate::fault::AuthorizerFault;
use backend_core::Outcome;
use call_facts::WireReply;
use policy_core::{AuthReply, Decision, Policy, PolicyFault, decide};
use std::alloc::Global;

// The policy that a body is.
#[tactic(auto, unfolding(crate::specs::Outcomes::read_of))]
fn read(alloc: Global, body: &[u8]) -> Result<Policy, AuthorizerFault>
    ensures { Tells (read_of body.now) result }
{
    match AuthReply::read(alloc, body) {
        Ok(policy) => Ok(policy),
        Err(PolicyFault::Malformed(_)) => Err(AuthorizerFault::Configuration),
        Err(PolicyFault::Memory) => Err(AuthorizerFault::Memory),
    }
}

fn replied(alloc: Global, reply: &WireReply) -> Result<Policy, AuthorizerFault>
    ensures tells { Tells (if_taken (reply.now.status == 200) reply.now.body) result }
    ensures failed { (reply.now.status ≡ 200 → ⊥) → IsErrOf result AuthorizerFault.Failure }
{
    if reply.status != 200 {
        return Err(AuthorizerFault::Failure);
    }
    read(alloc, reply.body.as_slice())
}

/// The policy that an exchange with an authorizer comes to.
///
/// # Errors
///
/// - [`AuthorizerFault::Failure`] where the exchange failed or lapsed, or the reply's status is not 200.
/// - [`AuthorizerFault::Configuration`] where it is 200 and the body is no policy.
/// - [`AuthorizerFault::Memory`] where the exchange or the policy wants memory.
pub fn policy_of(alloc: Global, outcome: &Outcome) -> Result<Policy, AuthorizerFault>
    ensures tells { Tells (policy_of_outcome outcome.now) result }

    // A failure takes no memory.
    ensures failed { IsFailure outcome.now → IsErrOf result AuthorizerFault.Failure }
{
    match outcome {
        Outcome::Reply(reply) => replied(alloc, reply),
        Outcome::Failed | Outcome::TimedOut => Err(AuthorizerFault::Failure),
        Outcome::Memory => Err(AuthorizerFault::Memory),
    }
}

/// Whether a policy allows the call of this name: no Deny covers it, and an Allow does; else the call is answered by
/// `ACCESS_DENIED`. It takes no memory.
pub fn is_allowed(policy: &Policy, arn: &str) -> bool
    ensures { result ≡ allows (decision policy.now arn.now) }
{
    match decide(policy, arn) {
        Decision::Allow(_) => true,
        Decision::Deny(_) | Decision::NoAllow => false,
    }
}
