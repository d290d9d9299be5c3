// The random words of a lane.
ghost use Rattle.std.specs.Prelude.{◌≡◌, ◌^◌, ◌%◌, ◌/◌};

use gw_base::SplitMix;

// How many numbers a lane may have, and how many moments are told apart: 2 ^ 32 milliseconds are 49 days.
const LANES: u64 = 1 << 32;

/// The words of a lane of this number, begun at this moment. Two lanes never begin alike, whatever their moments.
pub fn begin_words(moment: u64, lane: u32) -> SplitMix
    ensures lane { result.state % 2 ^ 32 ≡ lane }
    ensures moment { result.state / 2 ^ 32 ≡ moment % 2 ^ 32 }
{
    SplitMix {
        state: moment % LANES * LANES + u64::from(lane),
    }
}
