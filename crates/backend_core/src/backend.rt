// What answers requests.
ghost use Rattle.std.specs.Prelude.{◌≡◌, ℕ, List, Option, IsSome};
ghost use Rattle.backend_core.specs.Exchanges.{noted, HasStatus, Follows, IsCountOf};
ghost use Rattle.backend_core.specs.declared.request.WireRequest.{WireRequest as request_data};
ghost use Rattle.backend_core.specs.declared.outcome.Outcome.{Outcome as outcome_data};

use crate::outcome::Outcome;
use crate::request::WireRequest;
use std::alloc::Global;

/// What answers requests. It counts how often it failed and how often time lapsed, and may tell what it was sent, what it
/// gave and what it is to give.
pub trait Backend {
    /// The requests so far, oldest first, where it tells them.
    ghost sent: { Self → Option (List request_data) };

    /// The outcomes so far, oldest first, where it tells them.
    ghost given: { Self → Option (List outcome_data) };

    /// The outcomes that are to come, the next first, where it tells them.
    ghost to_come: { Self → Option (List outcome_data) };

    /// How often an exchange has failed, up to the count's greatest value.
    ghost faults: { Self → ℕ };

    /// How often time has lapsed, up to the count's greatest value.
    ghost lapses: { Self → ℕ };

    /// Sends a request and awaits the reply. Want of memory changes nothing that is told.
    fn exchange(&mut self, alloc: Global, request: &WireRequest) -> Outcome
        ensures status { HasStatus result }
        ensures sent { sent self.new ≡ noted result (sent self.old) request.now }
        ensures given { given self.new ≡ noted result (given self.old) result }
        ensures script { Follows result (to_come self.old) (to_come self.new) }
        ensures failures { IsCountOf Outcome.Failed result (faults self.old) (faults self.new) }
        ensures lapses { IsCountOf Outcome.TimedOut result (lapses self.old) (lapses self.new) };

    /// Who tells what is to come tells what was given.
    ghost tells_given: { (b : Self) → IsSome (to_come b) → IsSome (given b) };
}
