// What is done between two sessions, and behind the last one.
ghost use Rattle.std.specs.Prelude.{◌≡◌, [], Ok, Err, IfOk, IfErr, IsErrOf, OnOk};
ghost use Rattle.std.specs.Io.KnownBytes.{Appends};
ghost use Rattle.backend_core.specs.Exchanges.{gained};
ghost use Rattle.book_core.specs.Books.{Keeps};
ghost use Rattle.gate_session.specs.Line.{session_line as session_line_of};
ghost use Rattle.gw_base.specs.Outside.{HasWriteCause};
ghost use Rattle.gw_base.specs.Whole.{AppendsFront};
ghost use Rattle.session_chain.specs.Chains.{Begins};
ghost use Rattle.session_chain.specs.Ends.{stopped_by};
ghost use Rattle.session_chain.specs.Served.{IfRefused, NextFails};

use crate::fault::AllFault;
use crate::next::next_session;
use book_core::Book;
use book_rules::{Entry, Limits};
use gate_ports::Archive;
use gate_session::session_line;
use gate_walk::LaneEnd;
use gw_base::{Memory, Sink, WriteStop, write_all};
use keeper_core::Keeper;
use std::alloc::Global;

/// Writes the line of a session.
pub(crate) fn tell<K: Keeper, S: Sink>(
    alloc: Global,
    output: &mut S,
    book: &Book<K>,
) -> Result<(), WriteStop>
    ensures all { OnOk result (Appends (S.written output.old) (S.written output.new) (session_line_of book.now.base.opening book.now.history)) }
    ensures front { AppendsFront (S.written output.old) (S.written output.new) (session_line_of book.now.base.opening book.now.history) }
    ensures cause { HasWriteCause (S.faults output.old) (S.faults output.new) result }
{
    let line = session_line(alloc, book)?;
    write_all(output, line.as_str().as_bytes())
}

fn fault_of(stop: WriteStop) -> AllFault
    ensures { result ≡ stopped_by stop }
{
    match stop {
        WriteStop::Failed => AllFault::Output,
        WriteStop::Memory => AllFault::Memory,
    }
}

/// Closes the book of a full session, hands its history on, and starts the next book over its keeper.
pub(crate) fn follow<K: Keeper, A: Archive<Entry>>(
    alloc: Global,
    book: Book<K>,
    limits: Limits,
    archive: &mut A,
) -> Result<Book<K>, (K, AllFault)>
    ensures keeps { Keeps book.base book.history (K.facts book.keeper) }
    ensures begun { IfOk result (λ next. Begins limits book.base book.history (K.facts book.keeper) next.base) }
    ensures empty { IfOk result (λ next. next.history ≡ []) }
    ensures handed_on { OnOk result (A.sessions archive.new ≡ gained (A.sessions archive.old) book.history) }
    ensures refused { IfErr result (λ e. IfRefused e.1 (λ fault. NextFails (K.facts book.keeper) fault (K.facts e.0)
        × ((K.facts e.0).tables ≡ (K.facts book.keeper).tables) × (A.sessions archive.new ≡ gained (A.sessions archive.old) book.history))) }
    ensures output { IfErr result (λ e. e.1 ≡ AllFault.Output → ⊥) }
    ensures beside { A.beside archive.new ≡ A.beside archive.old }
{
    let (history, next) = next_session(alloc, book, limits);
    let handed_on = archive.closed(history);
    match (next, handed_on) {
        (Ok(book), Ok(())) => Ok(book),
        (Ok(book), Err(Memory)) => {
            let (keeper, _, _) = book.close();
            Err((keeper, AllFault::Memory))
        }
        (Err((keeper, fault)), Ok(())) => Err((keeper, AllFault::Start(fault))),
        (Err((keeper, _)), Err(Memory)) => Err((keeper, AllFault::Memory)),
    }
}

/// Closes the book of the last session and hands its history on: its keeper, and how its lanes ended, or why it stops there, where its
/// line was not written or memory is wanting.
pub(crate) fn finish<K: Keeper, A: Archive<Entry>>(
    book: Book<K>,
    ends: Vec<LaneEnd>,
    told: Result<(), WriteStop>,
    archive: &mut A,
) -> (K, Result<Vec<LaneEnd>, AllFault>)
    ensures keeps { Keeps book.base book.history (K.facts result.0) }
    ensures ended { IfOk result.1 (λ last. (last.items ≡ ends.items) × (told ≡ Ok tt) × (A.sessions archive.new ≡ gained (A.sessions archive.old) book.history)) }
    ensures unrefused { IfErr result.1 (λ e. IfRefused e (λ fault. ⊥)) }
    ensures cut { IsErrOf result.1 AllFault.Output → (told ≡ Err WriteStop.Failed) × (A.sessions archive.new ≡ gained (A.sessions archive.old) book.history) }
    ensures beside { A.beside archive.new ≡ A.beside archive.old }
{
    let (keeper, _, history) = book.close();
    match (archive.closed(history), told) {
        (Ok(()), Ok(())) => (keeper, Ok(ends)),
        (Ok(()), Err(stop)) => (keeper, Err(fault_of(stop))),
        (Err(Memory), _) => (keeper, Err(AllFault::Memory)),
    }
}
