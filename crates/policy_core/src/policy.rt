// What an authorizer's policy says, and what is decided by it.
use gw_base::{Seq, Text};

/// A policy.
#[derive(Drop)]
pub struct Policy {
    /// The principal of the caller.
    pub principal: Text,
    /// Its statements, in the order of the reply.
    pub statements: Seq<Statement>,
    /// The names and the texts of its context, in the order of the reply.
    pub context: Seq<(Text, Text)>,
}

/// A statement of a policy.
#[derive(Drop)]
pub struct Statement {
    /// Whether its effect is `Allow`; else it is `Deny`.
    pub allow: bool,
    /// Patterns of actions.
    pub actions: Seq<Text>,
    /// Patterns of the names of requests.
    pub resources: Seq<Text>,
}

/// What a policy decides of a request. The number is the place of the statement that decides, counted
/// from 0 over all statements of the policy.
#[derive(Clone, Copy, Debug, PartialEq, Eq)]
pub enum Decision {
    /// No Deny covers the request, and this is the first Allow that does.
    Allow(u64),
    /// This is the first Deny that covers the request.
    Deny(u64),
    /// No statement covers the request.
    NoAllow,
}
