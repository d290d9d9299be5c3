// The reader that callers see.
ghost use Rattle.std.specs.Prelude.{◌≡◌, ◌<◌, length, IfOk, IsErrOf, MatchResult};
ghost use Rattle.policy_core.specs.declared.policy.Policy.{Policy as PolicyOf};
ghost use Rattle.policy_core.specs.Forms.{States};
ghost use Rattle.policy_core.specs.Reading.{limit, malformed as malformed_of, reply_of};
ghost use Rattle.policy_core.specs.Views.{Gives};

use crate::fault::PolicyFault;
use crate::judge::reply_fault;
use crate::parts::policy_of;
use crate::policy::Policy;
use json_subset::{Json, JsonFault};
use std::alloc::Global;

/// The most bytes of a reply.
pub const LIMIT: usize = 65_536;

/// The reader of authorizers' replies.
pub struct AuthReply;

impl AuthReply {
    /// Reads an authorizer's reply as its policy.
    ///
    /// # Errors
    ///
    /// - [`PolicyFault::Malformed`] at the first fault of the reply, or at [`LIMIT`], before all else,
    ///   where the reply has more bytes.
    /// - [`PolicyFault::Memory`] where there is no memory for the policy.
    #[tactic(auto, unfolding(crate::specs::Reading::reply_of, crate::specs::Reading::limit))]
    pub fn read(alloc: Global, bytes: &[u8]) -> Result<Policy, PolicyFault>
        // What is read is a policy, and what is a policy is read, but for want of memory.
        ensures stated { IfOk result (λ policy. States bytes.now policy) }
        ensures only { (policy : PolicyOf) → States bytes.now policy → MatchResult result (λ read. read ≡ policy) (λ fault. fault ≡ PolicyFault.Memory) }

        // A reply that is too long is told before all else.
        ensures too_long { limit < length bytes.now → IsErrOf result (PolicyFault.Malformed limit) }

        // The same by the definition of the first fault.
        ensures gives { Gives result (reply_of bytes.now) }
    {
        if bytes.len() > LIMIT {
            return Err(PolicyFault::Malformed(LIMIT));
        }
        let doc = match Json::read(alloc, bytes) {
            Ok(doc) => doc,
            Err(fault) => return Err(malformed(fault)),
        };
        if let Some(at) = reply_fault(&doc, doc.root()) {
            return Err(PolicyFault::Malformed(at));
        }
        match policy_of(alloc, &doc, doc.root()) {
            Ok(policy) => Ok(policy),
            Err(_) => Err(PolicyFault::Memory),
        }
    }
}

/// A reply that is no JSON document is malformed at that fault.
fn malformed(fault: JsonFault) -> PolicyFault
    ensures { result ≡ malformed_of fault }
{
    match fault {
        JsonFault::Syntax(at)
        | JsonFault::Depth(at)
        | JsonFault::Repeated(at)
        | JsonFault::NotUtf8(at) => PolicyFault::Malformed(at),
        JsonFault::Memory => PolicyFault::Memory,
    }
}
