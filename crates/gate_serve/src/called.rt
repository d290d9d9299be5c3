// How far a message came.
ghost use Rattle.gate_serve.specs.Serving.{called_by};
ghost use Rattle.std.specs.Prelude.{◌≡◌};

use book_core::StepFault;
use call_facts::Kind;
use gate_walk::SessionFull;
use gw_base::Bytes;

/// How far a message came on its way.
#[derive(Drop)]
pub(crate) enum Called {
    /// To its answer: the cause, the bytes, and whether the connection closes behind them.
    Answered {
        cause: Option<Kind>,
        bytes: Bytes,
        closes: bool,
    },
    /// To a step that was refused, since the session is full.
    Full(SessionFull),
    /// To where memory was wanting.
    Memory,
}

// Where a refused step leads.
pub(crate) fn refusal(fault: StepFault) -> Called
    ensures { result ≡ called_by fault }
{
    match fault {
        StepFault::SessionFull { entries, bytes } => Called::Full(SessionFull { entries, bytes }),
        StepFault::Memory => Called::Memory,
    }
}
