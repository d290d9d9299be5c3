// What a reply to a Recall is to a call.
ghost use Rattle.std.specs.Prelude.{◌≡◌, IfOk};
ghost use Rattle.gate_walk.specs.Walk.{policy_in as policy_in_reply};

use book_rules::Reply;
use gw_base::{Memory, Shared};
use policy_core::Policy;

/// The policy that the book's reply to a Recall remembers; `None` where it remembers none.
///
/// # Errors
///
/// [`Memory`] where there is no memory to share it.
pub fn policy_in(reply: &Reply) -> Result<Option<Shared<Policy>>, Memory>
    ensures { IfOk result (λ policy. policy ≡ policy_in_reply reply.now) }
{
    match reply {
        Reply::Remembered(policy) => Ok(Some(policy.share()?)),
        _ => Ok(None),
    }
}
