// The policies that are remembered, as events ask for them.
ghost use Rattle.std.specs.Prelude.{◌≡◌, ◌+◌, ◌∷◌, ℕ, List, true, IfOk, OnOk, OnErr};
ghost use Rattle.book_rules.specs.Machine.{is_shared, recalled};
ghost use Rattle.policy_memory.specs.Kept.{Remembers};
ghost use Rattle.policy_memory.specs.Remembered.{Happening, flushed, learned, remembered};

use book_rules::Reply;
use gw_base::{Memory, Shared};
use policy_core::Policy;
use policy_memory::{Lesson, PolicyMemory, PolicyName};
use std::alloc::Global;

/// The policy that is remembered of a name at this moment, or that there is none.
pub fn recall(policies: &PolicyMemory, name: &PolicyName, at: u64) -> Result<Reply, Memory>
    ensures reply { (happened : List Happening) (next : ℕ) → Remembers happened next policies.now → IfOk result (λ reply. reply ≡ recalled (remembered happened name.now at)) }
    ensures memory { (happened : List Happening) (next : ℕ) → Remembers happened next policies.now → OnErr result (is_shared (recalled (remembered happened name.now at)) ≡ true) }
{
    match policies.recall(name, at) {
        Some(policy) => Ok(Reply::Remembered(policy.share()?)),
        None => Ok(Reply::NotRemembered),
    }
}

// The same name.
fn name_of(alloc: Global, name: &PolicyName) -> Result<PolicyName, Memory>
    ensures { IfOk result (λ other. other ≡ name.now) }
{
    Ok(PolicyName {
        api: name.api.copy(alloc)?,
        stage: name.stage.copy(alloc)?,
        authorizer: name.authorizer.copy(alloc)?,
        token: name.token.copy(alloc)?,
    })
}

/// When and where in the history a policy is learned, and for how many seconds.
#[derive(Clone, Copy)]
pub struct Learning {
    pub place: u64,
    pub at: u64,
    pub ttl: u32,
}

/// Learns a policy under a name. An `Err` changes nothing.
pub fn learn(
    policies: &mut PolicyMemory,
    alloc: Global,
    learning: Learning,
    name: &PolicyName,
    policy: &Shared<Policy>,
) -> Result<(), Memory>
    ensures remembers { OnOk result ((happened : List Happening) → Remembers happened learning.place policies.old
        → Remembers (learned name.now (record { policy = policy.now; ttl = learning.ttl; at = learning.at }) ∷ happened) (learning.place + 1) policies.new) }
    ensures unchanged { OnErr result (policies.new ≡ policies.old) }
{
    let name = name_of(alloc, name)?;
    let lesson = Lesson {
        policy: policy.share()?,
        ttl: learning.ttl,
        at: learning.at,
        place: learning.place,
    };
    policies.learn(name, lesson)
}
