// The media type of a message.
ghost use Rattle.std.specs.Prelude.{◌≡◌, IfOk};
ghost use Rattle.call_facts.specs.Target.{until};
ghost use Rattle.media_types.specs.MediaTypes.{media_type as media_type_of};

use crate::blanks::trim;
use call_facts::header_value;
use gw_base::{Memory, Text, lower};
use std::alloc::Global;

// What stands before the parameters of a content type.
#[tactic(auto, unfolding(call_facts::specs::Target::until))]
fn before_parameters(value: &str) -> &str
    ensures { result.now ≡ until 59 value.now }
{
    match value.split_once(';') {
        Some((before, _)) => before,
        None => value,
    }
}

/// The media type of a message with these header fields (RFC 9110, section 8.3): the first `content-type` up to a `;`,
/// without spaces and tabs around it, in lower case; where there is none, `application/json`.
///
/// # Errors
///
/// [`Memory`] where there is no memory for it.
#[tactic(auto, unfolding(crate::specs::MediaTypes::media_type))]
pub fn media_type(alloc: Global, headers: &[(Text, Text)]) -> Result<Text, Memory>
    ensures { IfOk result (λ media. media ≡ media_type_of headers.now) }
{
    match header_value(headers, "content-type") {
        Some(value) => {
            let media = trim(before_parameters(value.as_str()));
            Ok(Text::of(lower(alloc, media)?))
        }
        None => Ok(Text::of(String::from_str(alloc, "application/json")?)),
    }
}
