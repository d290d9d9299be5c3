ghost use Rattle.std.specs.Prelude.{◌≡◌};
ghost use Rattle.play_script.specs.declared.stops.PlayStop.TheVariants.{Memory as no_memory};
ghost use Rattle.play_script.specs.Stops.{of_write, of_session};

use gw_base::{Memory, WriteStop};
use play_session::SessionFault;

/// Why a play stops before its end.
#[derive(Clone, Copy, Debug, PartialEq, Eq)]
pub enum PlayStop {
    /// The keeper's load failed, as the script tells.
    Keeper,
    /// A write of the output failed.
    Output,
    /// Memory is wanting.
    Memory,
}

impl From<Memory> for PlayStop {
    ghost from_gives = { λ _ e. e ≡ no_memory };

    fn from(_: Memory) -> Self {
        PlayStop::Memory
    }
}

impl From<WriteStop> for PlayStop {
    ghost from_gives = { λ stop e. e ≡ of_write stop };

    fn from(stop: WriteStop) -> Self {
        match stop {
            WriteStop::Failed => PlayStop::Output,
            WriteStop::Memory => PlayStop::Memory,
        }
    }
}

impl From<SessionFault> for PlayStop {
    ghost from_gives = { λ fault e. e ≡ of_session fault };

    fn from(fault: SessionFault) -> Self {
        match fault {
            SessionFault::Keeper => PlayStop::Keeper,
            SessionFault::Memory => PlayStop::Memory,
        }
    }
}
