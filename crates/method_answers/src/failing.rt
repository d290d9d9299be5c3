// The gateway's own answers under an API that is a document.
ghost use Rattle.std.specs.Prelude.{◌≡◌, ◌<◌, IfOk};
ghost use Rattle.method_answers.specs.Failing.{failed_by as failed_by_of};

use api_model::Api;
use call_facts::{CallFacts, Kind};
use gateway_answers::fail_by;
use gw_base::Memory;
use method_flow::Made;
use std::alloc::Global;

/// The gateway's own answer of a kind with its own message.
pub(crate) fn failed_by(
    alloc: Global,
    kind: Kind,
    api: &Api,
    facts: &CallFacts,
) -> Result<Made, Memory>
    requires { facts.now.at < 4102444800000 }
    ensures { IfOk result (λ made. made ≡ failed_by_of kind api.now facts.now) }
{
    fail_by(alloc, kind, kind.message(), Some(api), facts)
}
