// The status of an answer.
ghost use Rattle.std.specs.Prelude.{◌≡◌};
ghost use Rattle.std.specs.Option.{option_map};
ghost use Rattle.integration_flow.specs.Answers.{status_in as status_in_of, status_over as status_over_of};
ghost use Rattle.integration_flow.specs.Stopping.{Flows};

use crate::stops::FlowStop;
use gw_base::Text;

#[tactic(auto, unfolding(crate::specs::Answers::status_in))]
fn status_in(text: &[u8]) -> Option<u16>
    ensures { result ≡ status_in_of text.now }
{
    if text.len() != 3 {
        return None;
    }
    let (hundreds, tens, ones) = (text[0], text[1], text[2]);
    if b'2' <= hundreds
        && hundreds <= b'5'
        && b'0' <= tens
        && tens <= b'9'
        && b'0' <= ones
        && ones <= b'9'
    {
        Some(
            100 * u16::from(hundreds - b'0') + 10 * u16::from(tens - b'0') + u16::from(ones - b'0'),
        )
    } else {
        None
    }
}

/// The status of a rule, or the one that a template wrote over it.
pub fn status_over(status: u16, over: Option<&Text>) -> Result<u16, FlowStop>
    ensures { Flows (status_over_of status (option_map (λ t. t.now) over.entry)) result }
{
    let Some(text) = over else {
        return Ok(status);
    };
    match status_in(text.as_str().as_bytes()) {
        Some(status) => Ok(status),
        None => Err(FlowStop::Config),
    }
}
