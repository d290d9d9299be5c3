// The places of faults. A fault's place is built from its member outward, and only where there is a fault.
ghost use Rattle.std.specs.Prelude.{◌≡◌, ◌++◌, ◌⊎◌, IfOk, OnOk, string_bytes};
ghost use Rattle.api_parts.specs.Places.{pointer_name, fault_below};

use crate::fault::{ApiCause, ApiFault};
use gw_base::{Memory, Text};
use std::alloc::Global;

/// Want of memory, which has no place.
pub fn no_memory(alloc: Global) -> ApiFault
    ensures { result.cause ≡ ApiCause.Memory }
{
    ApiFault {
        place: Text::of(String::new(alloc)),
        cause: ApiCause::Memory,
    }
}

// Adds a name as a pointer has it: `~` and `/` as `~0` and `~1`.
fn push_name(out: &mut String, name: &str) -> Result<(), Memory>
    ensures { OnOk result (string_bytes out.new ≡ string_bytes out.old ++ pointer_name name.now) }
{
    for c in name.chars() {
        if c == '~' {
            out.push_str("~0")?;
        } else if c == '/' {
            out.push_str("~1")?;
        } else {
            out.push(c)?;
        }
    }
    Ok(())
}

fn place_below(alloc: Global, name: &str, place: &str) -> Result<Text, Memory>
    ensures { IfOk result (λ t. t ≡ Rattle.api_parts.specs.Places.below name.now place.now) }
{
    let mut text = String::from_str(alloc, "/")?;
    push_name(&mut text, name)?;
    text.push_str(place)?;
    Ok(Text::of(text))
}

/// A fault of a member's value, as the object sees it: it stands below the member's name.
pub fn below(alloc: Global, name: &str, fault: ApiFault) -> ApiFault
    ensures { (result.cause ≡ ApiCause.Memory) ⊎ (result ≡ fault_below name.now fault) }
{
    match place_below(alloc, name, fault.place.as_str()) {
        Ok(place) => ApiFault {
            place,
            cause: fault.cause,
        },
        Err(_) => no_memory(alloc),
    }
}
