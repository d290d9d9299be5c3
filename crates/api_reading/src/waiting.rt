// Faults that wait until all members are read.
ghost use Rattle.std.specs.Prelude.{◌≡◌, MatchResult, Some};
ghost use Rattle.api_parts.specs.Places.{fault_below};
ghost use Rattle.api_parts.specs.Reading.{first_of, here, waiting_below};

use crate::values::fault_here;
use api_parts::{ApiCause, ApiFault, below};
use std::alloc::Global;

// A fault of a member's value, as the object sees it, with its place.
fn place_below(alloc: Global, name: &str, fault: ApiFault) -> Result<ApiFault, ApiFault>
    ensures { MatchResult result (λ e. e ≡ fault_below name.now fault) (λ e. e.cause ≡ ApiCause.Memory) }
{
    let fault = below(alloc, name, fault);
    match fault.cause {
        ApiCause::Memory => Err(fault),
        _ => Ok(fault),
    }
}

/// Keeps the fault of a member until all members are read. Of two, the first that is met counts; its place is told from the object.
///
/// # Errors
///
/// [`ApiCause::Memory`] where there is no memory.
pub fn defer(
    alloc: Global,
    waiting: &mut Option<ApiFault>,
    name: &str,
    fault: Option<ApiFault>,
) -> Result<(), ApiFault>
    ensures { MatchResult result (λ _. waiting.new ≡ first_of waiting.old (waiting_below name.now fault)) (λ e. e.cause ≡ ApiCause.Memory) }
{
    if waiting.is_some() {
        return Ok(());
    }
    if let Some(fault) = fault {
        *waiting = Some(place_below(alloc, name, fault)?);
    }
    Ok(())
}

/// Keeps `BadMapping` for a member that is not a mapping, as [`defer`] does.
///
/// # Errors
///
/// [`ApiCause::Memory`] where there is no memory.
pub fn defer_bad_mapping(
    alloc: Global,
    waiting: &mut Option<ApiFault>,
    name: &str,
) -> Result<(), ApiFault>
    ensures { MatchResult result (λ _. waiting.new ≡ first_of waiting.old (Some (fault_below name.now (here ApiCause.BadMapping)))) (λ e. e.cause ≡ ApiCause.Memory) }
{
    let fault = fault_here(alloc, ApiCause::BadMapping);
    defer(alloc, waiting, name, Some(fault))
}
