// What the gateway knows of a call.
use crate::kind::Kind;
use crate::vars::Vars;
use gw_base::{Name, Shared, Text};
use policy_core::Policy;

/// What the gateway knows of a call.
pub struct CallFacts {
    /// The API.
    pub api: Text,
    /// The stage.
    pub stage: Text,
    /// The place of the call's first entry in the history.
    pub place: u64,
    /// The moment of the call, in milliseconds since 1970.
    pub at: u64,
    /// The deployment that answers.
    pub deployment: u32,
    /// Whether the stage's canary was taken.
    pub canary: bool,
    /// The stage variables.
    pub variables: Shared<Vars>,
    /// The path of the resource, as it is defined.
    pub resource: Text,
    /// The key that was admitted.
    pub key: Option<Name>,
    /// The policy of the authorizer.
    pub policy: Option<Shared<Policy>>,
    /// Where the gateway answers itself, the kind of its answer and the message.
    pub error: Option<(Kind, Text)>,
}

// Written by hand, so that a function that lets a value go makes one call.
impl Drop for CallFacts {
    fn drop(self) {
        let CallFacts {
            api: _,
            stage: _,
            place: _,
            at: _,
            deployment: _,
            canary: _,
            variables: _,
            resource: _,
            key: _,
            policy: _,
            error: _,
        } = self;
    }
}
