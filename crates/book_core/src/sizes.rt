// What the texts of an event sum up to.
ghost use Rattle.std.specs.Prelude.{◌≡◌, sum_by};
ghost use Rattle.book_rules.specs.History.{capped, size as size_of_event, command_size as command_size_of, pairs_size as pairs_size_of, name_size as name_size_of, policy_size as policy_size_of, statement_size, texts_size as texts_size_of};

use book_rules::{Command, Event};
use gw_base::Text;
use policy_core::{Policy, Statement};
use policy_memory::PolicyName;

// The bytes of both texts of each pair.
fn pairs_size(pairs: &[(Text, Text)]) -> u128
    ensures { result ≡ capped (pairs_size_of pairs.now) }
{
    let mut sum: u128 = 0;
    for pair in pairs {
        sum = sum.saturating_add(pair.0.len() as u128 + pair.1.len() as u128);
    }
    sum
}

fn command_size(command: &Command) -> u128
    ensures { result ≡ capped (command_size_of command.now) }
{
    match command {
        Command::PutApi { api, definition } => {
            api.len() as u128 + definition.value().source().len() as u128
        }
        Command::Deploy { api } => api.len() as u128,
        Command::PutStage {
            api,
            stage,
            variables,
            ..
        } => {
            pairs_size(variables.value().pairs.as_slice()).saturating_add(
                api.len() as u128 + stage.len() as u128,
            )
        }
        Command::PutCanary {
            api,
            stage,
            variables,
            ..
        } => {
            pairs_size(variables.value().pairs.as_slice()).saturating_add(
                api.len() as u128 + stage.len() as u128,
            )
        }
        Command::PromoteCanary { api, stage } | Command::Flush { api, stage } => {
            api.len() as u128 + stage.len() as u128
        }
        Command::PutKey { key, value, .. } => key.len() as u128 + value.len() as u128,
        Command::PutPlan { plan, stages, .. } => {
            pairs_size(stages.as_slice()).saturating_add(plan.len() as u128)
        }
        Command::JoinKey { plan, key }
        | Command::Grant { plan, key, .. }
        | Command::Usage { plan, key } => plan.len() as u128 + key.len() as u128,
        Command::Shutdown => 0,
    }
}

fn texts_size(texts: &[Text]) -> u128
    ensures { result ≡ capped (texts_size_of texts.now) }
{
    let mut sum: u128 = 0;
    for text in texts {
        sum = sum.saturating_add(text.len() as u128);
    }
    sum
}

fn statements_size(statements: &[Statement]) -> u128
    ensures { result ≡ capped (sum_by statement_size statements.now) }
{
    let mut sum: u128 = 0;
    for statement in statements {
        sum = sum.saturating_add(texts_size(statement.actions.as_slice()).saturating_add(texts_size(
            statement.resources.as_slice(),
        )));
    }
    sum
}

fn policy_size(policy: &Policy) -> u128
    ensures { result ≡ capped (policy_size_of policy.now) }
{
    statements_size(policy.statements.as_slice())
        .saturating_add(pairs_size(policy.context.as_slice()))
        .saturating_add(policy.principal.len() as u128)
}

fn name_size(name: &PolicyName) -> u128
    ensures { result ≡ name_size_of name.now }
{
    (name.api.len() as u128 + name.stage.len() as u128)
        + (name.authorizer.len() as u128 + name.token.len() as u128)
}

/// The bytes of all texts of an event, up to the greatest number of 128 bits.
pub fn size(event: &Event) -> u128
    ensures { result ≡ capped (size_of_event event.now) }
{
    match event {
        Event::Enter { api, stage, .. } => api.len() as u128 + stage.len() as u128,
        Event::Recall { name, .. } => name_size(name),
        Event::Learn { name, policy, .. } => {
            policy_size(policy.value()).saturating_add(name_size(name))
        }
        Event::Admit {
            api,
            stage,
            value,
            ..
        } => api.len() as u128 + stage.len() as u128 + value.len() as u128,
        Event::Admin { command, .. } => command_size(command),
        Event::Leave { .. } => 0,
    }
}
