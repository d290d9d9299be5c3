// A call behind its route.
ghost use Rattle.std.specs.Prelude.{◌≡◌};
ghost use Rattle.method_answers.specs.Plans.{with_key as with_key_of, with_policy as with_policy_of};

use api_model::Api;
use call_facts::{CallFacts, Request, Target};
use gw_base::{Name, Shared};
use policy_core::Policy;
use resource_tree::Found;
use std::marker::Model;

/// A call whose route hits a method of an API.
#[derive(Drop)]
pub struct RoutedCall<'a> {
    pub(crate) api: &'a Api,
    pub(crate) method: u32,
    pub(crate) request: &'a Request,
    pub(crate) target: &'a Target,
    pub(crate) found: Found,
    pub(crate) facts: CallFacts,
}

impl<'a> Model for RoutedCall<'a> {
    ghost use Rattle.std.specs.Prelude.{◌<◌, length};
    ghost use Rattle.api_model.specs.Definition.{parts_of};
    ghost use Rattle.method_answers.specs.Calls.{Call};

    ghost Value = { Call };

    ghost view = { λ c. record { definition = c.api.now; method = c.method; request = c.request.now; target = c.target.now; found = c.found; facts = c.facts } };

    ghost invariant = { λ c. (c.method < length (parts_of c.api.now).methods) × (c.facts.at < 4102444800000) };
}

impl<'a> RoutedCall<'a> {
    /// The place of the call's first entry in the history.
    pub fn place(&self) -> u64
        ensures { result ≡ self.now.facts.place }
    {
        self.facts.place
    }

    /// The same call, of which it is known that this key admitted it.
    pub(crate) fn with_key(self, key: Name) -> Self
        ensures { result ≡ with_key_of self.entry key }
    {
        let RoutedCall {
            api,
            method,
            request,
            target,
            found,
            mut facts,
        } = self;
        facts.key = Some(key);
        RoutedCall {
            api,
            method,
            request,
            target,
            found,
            facts,
        }
    }

    /// The same call, of which it is known that an authorizer gave this policy.
    pub(crate) fn with_policy(self, policy: Shared<Policy>) -> Self
        ensures { result ≡ with_policy_of self.entry policy }
    {
        let RoutedCall {
            api,
            method,
            request,
            target,
            found,
            mut facts,
        } = self;
        facts.policy = Some(policy);
        RoutedCall {
            api,
            method,
            request,
            target,
            found,
            facts,
        }
    }
}
