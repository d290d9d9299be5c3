// Whether another session follows.
ghost use Rattle.std.specs.Prelude.{◌≡◌, ◌&&◌};
ghost use Rattle.std.specs.List.{list_any};
ghost use Rattle.std.specs.Result.{is_ok};
ghost use Rattle.book_rules.specs.Machine.{shuts as shuts_of};
ghost use Rattle.session_chain.specs.Ends.{has_next as has_next_of, has_port_fault as has_port_fault_of, is_full as is_full_of, shuts_at, wants_memory as wants_memory_of};

use book_rules::{Command, Entry, Event};
use gate_walk::LaneEnd;
use gw_base::WriteStop;

fn is_full(end: LaneEnd) -> bool
    ensures { result ≡ is_full_of end }
{
    matches!(end, LaneEnd::Full { .. })
}

fn has_port_fault(end: LaneEnd) -> bool
    ensures { result ≡ has_port_fault_of end }
{
    matches!(end, LaneEnd::PortFault)
}

fn wants_memory(end: LaneEnd) -> bool
    ensures { result ≡ wants_memory_of end }
{
    matches!(end, LaneEnd::Memory)
}

fn shuts(event: &Event) -> bool
    ensures { result ≡ shuts_of event.now }
{
    match event {
        Event::Admin { command, .. } => matches!(command, Command::Shutdown),
        Event::Enter { .. }
        | Event::Recall { .. }
        | Event::Learn { .. }
        | Event::Admit { .. }
        | Event::Leave { .. } => false,
    }
}

/// Whether a lane of these ended since its session was full.
fn any_full(ends: &[LaneEnd]) -> bool
    ensures { result ≡ list_any is_full_of ends.now }
{
    ends.iter().any(|end| is_full(*end))
}

/// Whether a look for a connection failed on a lane.
pub fn any_port_fault(ends: &[LaneEnd]) -> bool
    ensures { result ≡ list_any has_port_fault_of ends.now }
{
    ends.iter().any(|end| has_port_fault(*end))
}

/// Whether memory was wanting on a lane.
pub fn any_wants_memory(ends: &[LaneEnd]) -> bool
    ensures { result ≡ list_any wants_memory_of ends.now }
{
    ends.iter().any(|end| wants_memory(*end))
}

fn any_shuts(history: &[Entry]) -> bool
    ensures { result ≡ list_any shuts_at history.now }
{
    history.iter().any(|entry| shuts(&entry.event))
}

// Whether a session of these ends and of this history has a next one.
fn has_next(ends: &[LaneEnd], history: &[Entry]) -> bool
    ensures { result ≡ has_next_of ends.now history.now }
{
    any_full(ends) && !any_port_fault(ends) && !any_wants_memory(ends) && !any_shuts(history)
}

/// Whether another session follows the one of these ends and of this history, whose line was told so.
pub(crate) fn follows(told: Result<(), WriteStop>, ends: &[LaneEnd], history: &[Entry]) -> bool
    ensures { result ≡ (is_ok told && has_next_of ends.now history.now) }
{
    told.is_ok() && has_next(ends, history)
}
