// Which response rule a status selects.
ghost use Rattle.std.specs.Prelude.{◌≡◌, ◌≤◌, ◌<◌, length};
ghost use Rattle.std.specs.List.{find};
ghost use Rattle.std.specs.Option.{option_map};
ghost use Rattle.api_model.specs.Definition.{parts_of};
ghost use Rattle.integration_flow.specs.Choosing.{chosen, is_default as is_default_of, is_for as is_for_of, rules_of};

use api_model::{Api, ResponseRule};

fn is_for(rule: &ResponseRule, status: u16) -> bool
    requires { (100 ≤ status) × (status < 1000) }
    ensures { result ≡ is_for_of status rule.now }
{
    match &rule.pattern {
        Some(table) => table.value().holds(status),
        None => false,
    }
}

fn is_default(rule: &ResponseRule) -> bool
    ensures { result ≡ is_default_of rule.now }
{
    rule.pattern.is_none()
}

// The first rule whose pattern takes the status.
fn first_for(rules: &[ResponseRule], status: u16) -> Option<&ResponseRule>
    requires { (100 ≤ status) × (status < 1000) }
    ensures { option_map (λ r. r.now) result ≡ find (is_for_of status) rules.now }
{
    for rule in rules {
        if is_for(rule, status) {
            return Some(rule);
        }
    }
    None
}

// The first rule without a pattern.
fn first_default(rules: &[ResponseRule]) -> Option<&ResponseRule>
    ensures { option_map (λ r. r.now) result ≡ find is_default_of rules.now }
{
    for rule in rules {
        if is_default(rule) {
            return Some(rule);
        }
    }
    None
}

/// The rule of these that a status selects.
#[tactic(auto, unfolding(crate::specs::Choosing::chosen))]
pub fn choose(rules: &[ResponseRule], status: u16) -> Option<&ResponseRule>
    requires { (100 ≤ status) × (status < 1000) }
    ensures { option_map (λ r. r.now) result ≡ chosen rules.now status }
{
    match first_for(rules, status) {
        Some(rule) => Some(rule),
        None => first_default(rules),
    }
}

/// The response rule of a method that a backend's status selects (API Gateway Developer Guide, "Integration response"): the
/// first whose pattern matches the whole text of the status, else the one without a pattern; `None` where the method has
/// neither. It takes no memory.
pub fn choose_response(api: &Api, method: u32, status: u16) -> Option<&ResponseRule>
    requires method { method < length (parts_of api.now).methods }
    requires status { (100 ≤ status) × (status < 1000) }
    ensures { option_map (λ r. r.now) result ≡ chosen (rules_of api.now method) status }
{
    choose(api.integration(method).responses.as_slice(), status)
}
