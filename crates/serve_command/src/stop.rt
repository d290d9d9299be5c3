// Why serving stops before its end.
ghost use Rattle.std.specs.Prelude.{◌≡◌};
ghost use Rattle.serve_command.specs.declared.stop.ServeStop.TheVariants.{Memory as no_memory};

use gw_base::Memory;

/// Why serving stops before its end.
#[derive(Clone, Copy, Debug, PartialEq, Eq)]
pub enum ServeStop {
    /// The store's keeper could not be had, or a load of it failed, or a row of it is none that a next session starts from.
    Keeper,
    /// No lanes could be had, or a look for a connection failed on one of the last session.
    Port,
    /// A write of the output failed.
    Output,
    /// Memory is wanting.
    Memory,
}

impl From<Memory> for ServeStop {
    ghost from_gives = { λ _ e. e ≡ no_memory };

    fn from(_: Memory) -> Self {
        ServeStop::Memory
    }
}
