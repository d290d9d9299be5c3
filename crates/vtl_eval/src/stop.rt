ghost use Rattle.std.specs.Prelude.{◌≡◌};
ghost use Rattle.vtl_eval.specs.declared.stop.Fail.TheVariants.{Memory as no_memory};

use gw_base::{Memory, Text};
use std::alloc::{AllocError, AllocFailed};
use std::fmt;

/// A text that was rendered, and how many steps it cost.
#[derive(Drop)]
pub struct Rendered {
    pub text: Text,
    pub steps: u64,
}

/// A limit of a render.
#[derive(Clone, Copy, Debug, PartialEq, Eq)]
pub enum Limit {
    /// The budget of steps.
    Steps,
    /// The bytes of the text, or of all texts made.
    Bytes,
    /// How deep macros call one another.
    Depth,
}

/// How items ended.
#[derive(Clone, Copy, Debug, PartialEq, Eq)]
pub enum Ended {
    /// The last one ran.
    Ran,
    /// By `#break`.
    Broke,
    /// By `#stop`.
    Stopped,
}

/// Why a render ended before the template's end.
#[derive(Clone, Copy, Debug, PartialEq, Eq)]
pub enum Stop {
    /// The next step would pass the budget.
    Steps,
    /// The text would pass 10,485,760 bytes, or all texts made together 67,108,864.
    Bytes,
    /// A macro was called inside twenty others.
    Depth,
    /// Memory is wanting.
    Memory,
}

/// Prints its name, as `Steps`.
impl fmt::Display for Stop {
    ghost use Rattle.std.specs.Prelude.{Some};
    ghost use Rattle.vtl_eval.specs.Printed.{stop_name};

    ghost output = { λ stop. Some (stop_name stop) };

    fn fmt<W: fmt::Write>(&self, f: &mut fmt::Formatter<W>) -> fmt::Result {
        f.write_str(match self {
            Stop::Steps => "Steps",
            Stop::Bytes => "Bytes",
            Stop::Depth => "Depth",
            Stop::Memory => "Memory",
        })
    }
}

/// A limit that was met, or want of memory.
#[derive(Clone, Copy, Debug, PartialEq, Eq)]
pub enum Fail {
    Memory,
    Met(Limit),
}

impl From<AllocError> for Fail {
    ghost from_gives = { λ _ e. e ≡ no_memory };

    fn from(_: AllocError) -> Self {
        Fail::Memory
    }
}

impl From<Memory> for Fail {
    ghost from_gives = { λ _ e. e ≡ no_memory };

    fn from(_: Memory) -> Self {
        Fail::Memory
    }
}

impl<T: Drop> From<AllocFailed<T>> for Fail {
    ghost from_gives = { λ _ e. e ≡ no_memory };

    fn from(_: AllocFailed<T>) -> Self {
        Fail::Memory
    }
}
