// Which calls are taken to a canary.
ghost use Rattle.std.specs.Prelude.{◌≡◌};
ghost use Rattle.stage_canary.specs.Canaries.{takes_canary as takes_canary_of};

/// The share of a canary to which all calls are taken.
pub const WHOLE_SHARE: u64 = 10_000;

/// Whether the call of this random word is taken to a canary of this share.
pub fn takes_canary(share: u64, word: u64) -> bool
    ensures { result ≡ takes_canary_of share word }
{
    word % WHOLE_SHARE < share
}
