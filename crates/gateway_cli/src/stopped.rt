ghost use Rattle.std.specs.Prelude.{◌≡◌};
ghost use Rattle.gateway_cli.specs.declared.stopped.Stopped.TheVariants.{Memory as no_memory};

use gw_base::Memory;

/// Why the program stops before its end.
#[derive(Clone, Copy, Debug, PartialEq, Eq)]
pub enum Stopped {
    /// A read of the input failed.
    Input,
    /// A file could not be had.
    File,
    /// The load of a play's keeper failed, as the script tells.
    Keeper,
    /// A write of the output failed.
    Output,
    /// Memory is wanting.
    Memory,
}

impl From<Memory> for Stopped {
    ghost from_gives = { λ _ e. e ≡ no_memory };

    fn from(_: Memory) -> Self {
        Stopped::Memory
    }
}
