// What a policy decides.
ghost use Rattle.std.specs.Prelude.{◌≡◌, position};
ghost use Rattle.std.specs.List.{list_any};
ghost use Rattle.policy_core.specs.Decisions.{Decides, decision, has_effect as has_effect_of, is_covering, statement_covers as statement_covers_of, action_covers as action_covers_of, resource_covers as resource_covers_of};

use crate::pattern::{Case, covers};
use crate::policy::{Decision, Policy, Statement};

/// The one action of which requests ask.
const INVOKE: &str = "execute-api:Invoke";

/// What a policy decides of the request of this name: the first Deny that covers it, else the first
/// Allow that does, else that nothing is allowed. It takes no memory.
#[tactic(auto, unfolding(crate::specs::Decisions::decision))]
pub fn decide(policy: &Policy, arn: &str) -> Decision
    ensures decides { Decides policy.now arn.now result }
    ensures decided { result ≡ decision policy.now arn.now }
{
    let statements = policy.statements.as_slice();
    if let Some(at) = first_covering(statements, false, arn) {
        return Decision::Deny(at as u64);
    }
    match first_covering(statements, true, arn) {
        Some(at) => Decision::Allow(at as u64),
        None => Decision::NoAllow,
    }
}

/// The place of the first statement of this effect that covers the request.
fn first_covering(statements: &[Statement], allow: bool, arn: &str) -> Option<usize>
    ensures { result ≡ position (is_covering allow arn.now) statements.now }
{
    statements.iter().position(|statement| has_effect(statement, allow)
        && statement_covers(statement, arn))
}

fn has_effect(statement: &Statement, allow: bool) -> bool
    ensures { result ≡ has_effect_of allow statement.now }
{
    if allow {
        statement.allow
    } else {
        !statement.allow
    }
}

fn statement_covers(statement: &Statement, arn: &str) -> bool
    ensures { result ≡ statement_covers_of arn.now statement.now }
{
    one_covers_action(statement) && one_covers_resource(statement, arn)
}

fn one_covers_action(statement: &Statement) -> bool
    ensures { result ≡ list_any action_covers_of statement.now.actions }
{
    statement
        .actions
        .as_slice()
        .iter()
        .any(|action| action_covers(action.as_str()))
}

fn one_covers_resource(statement: &Statement, arn: &str) -> bool
    ensures { result ≡ list_any (resource_covers_of arn.now) statement.now.resources }
{
    statement
        .resources
        .as_slice()
        .iter()
        .any(|resource| covers(Case::Exact, resource.as_str(), arn))
}

fn action_covers(action: &str) -> bool
    ensures { result ≡ action_covers_of action.now }
{
    covers(Case::Ignored, action, INVOKE)
}
