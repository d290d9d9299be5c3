// Why an integration gives no answer.
ghost use Rattle.std.specs.Prelude.{◌≡◌};
ghost use Rattle.integration_flow.specs.declared.stops.FlowStop.TheVariants.{Memory as no_memory};

use gw_base::Memory;
use std::alloc::{AllocError, AllocFailed};

/// Why an integration gives no answer, each but the last with the gateway response that tells it.
#[derive(Clone, Copy, Debug, PartialEq, Eq)]
pub enum FlowStop {
    /// `UNSUPPORTED_MEDIA_TYPE`: no template stands for the body's media type, and the body may not be passed on.
    Media,
    /// `API_CONFIGURATION_ERROR`: a render stops by a limit, a name or a value may not be written, a status is none, no response
    /// rule is for the status, or a `uri` is none with its values.
    Config,
    /// Memory is wanting.
    Memory,
}

impl From<Memory> for FlowStop {
    ghost from_gives = { λ _ e. e ≡ no_memory };

    fn from(_: Memory) -> Self {
        FlowStop::Memory
    }
}

impl From<AllocError> for FlowStop {
    ghost from_gives = { λ _ e. e ≡ no_memory };

    fn from(_: AllocError) -> Self {
        FlowStop::Memory
    }
}

impl<T: Drop> From<AllocFailed<T>> for FlowStop {
    ghost from_gives = { λ _ e. e ≡ no_memory };

    fn from(_: AllocFailed<T>) -> Self {
        FlowStop::Memory
    }
}
