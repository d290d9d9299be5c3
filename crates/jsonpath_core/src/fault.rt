// Why a text is no path.
use std::alloc::{AllocError, AllocFailed};
use std::error::Error;
use std::fmt;

/// Why a text is not read as a path. The place counts bytes from 0.
#[derive(Clone, Copy, PartialEq, Eq, Debug, Drop)]
pub enum PathFault {
    /// The first byte that cannot go on: no path begins with the text up to and including it. It is
    /// the length of the text where more would have to follow.
    BadPath(usize),
    /// There was no memory for the path.
    Memory,
}

/// Prints `BadPath(2)` or `Memory`.
impl fmt::Display for PathFault {
    ghost use Rattle.std.specs.Prelude.{Some};
    ghost use Rattle.jsonpath_core.specs.Printed.{printed};

    ghost output = { λ fault. Some (printed fault) };

    fn fmt<W: fmt::Write>(&self, f: &mut fmt::Formatter<W>) -> fmt::Result {
        match self {
            PathFault::BadPath(at) => write!(f, "BadPath({at})"),
            PathFault::Memory => f.write_str("Memory"),
        }
    }
}

impl Error for PathFault {}

impl From<AllocError> for PathFault {
    ghost use Rattle.std.specs.Prelude.{◌≡◌};
    ghost use Rattle.jsonpath_core.specs.declared.fault.PathFault.TheVariants.{Memory};

    ghost from_gives = { λ _ fault. fault ≡ Memory };

    fn from(_: AllocError) -> Self {
        PathFault::Memory
    }
}

impl<T: Drop> From<AllocFailed<T>> for PathFault {
    ghost use Rattle.std.specs.Prelude.{◌≡◌};
    ghost use Rattle.jsonpath_core.specs.declared.fault.PathFault.TheVariants.{Memory};

    ghost from_gives = { λ _ fault. fault ≡ Memory };

    fn from(_: AllocFailed<T>) -> Self {
        PathFault::Memory
    }
}
