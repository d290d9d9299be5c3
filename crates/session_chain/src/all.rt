// Sessions that follow each other.
ghost use Rattle.std.specs.Prelude.{◌≡◌, ◌≤◌, [], All, IfOk, IfErr, IsErrOf, length, map};
ghost use Rattle.gate_session.specs.Posts.{IsOpen};
ghost use Rattle.gw_base.specs.Outside.{Rose};
ghost use Rattle.outside_core.specs.Told.{told_of};
ghost use Rattle.session_chain.specs.Served.{Around, HasEnded, IsRefused, WasCut, IfRefused};

use crate::fault::AllFault;
use crate::follow::follows;
use crate::turn::{finish, follow, tell};
use backend_core::Backend;
use book_core::Book;
use book_rules::{Entry, Limits};
use gate_ports::{Archive, Gate, Lane, Port};
use gate_session::serve_session;
use gate_walk::LaneEnd;
use gw_base::{Clock, Sink, Words};
use keeper_core::Keeper;
use std::alloc::Global;
use std::sync::Wait;
use std::thread::Threads;

/// Serves the lanes over a book, and where that session was full, over the next one of its keeper, and so on. The line of each session is
/// written and its history handed on. It answers the keeper, and how the lanes of the last session ended.
///
/// # Errors
///
/// Says why no further session is served: the next book did not start, a line could not be written, or memory is wanting.
pub fn serve_all<
    R: Threads + Wait + Sync,
    K: Keeper + Send,
    P: Port + Send,
    B: Backend + Send,
    T: Clock + Send,
    W: Words + Send,
    G: Gate + Send,
    S: Sink,
    A: Archive<Entry>,
>(
    rt: &R,
    alloc: Global,
    book: Book<K>,
    lanes: &mut Vec<Lane<P, B, T, W, G>>,
    limits: Limits,
    output: &mut S,
    archive: &mut A,
) -> (K, Result<Vec<LaneEnd>, AllFault>)
where
    P::Link: Send,
    requires number { (1 ≤ length lanes.old.items) × (length lanes.old.items ≤ 8) }
    requires fresh { book.history ≡ [] }
    requires are_open { All IsOpen (map (λ l. told_of (P.coming l.port) (P.served l.port) (B.sent l.means.backend) (B.given l.means.backend) (T.fixed l.means.clock) (W.fixed l.means.words) (P.closed l.port) (P.out l.port) (P.faults l.port)) lanes.old.items) }

    // Each session but the last has a next one, which begins behind it; the line of each is written, and its history handed on.
    ensures ended { IfOk result.1 (λ ends. HasEnded limits book.base (record {
      lent = map (λ l. told_of (P.coming l.port) (P.served l.port) (B.sent l.means.backend) (B.given l.means.backend) (T.fixed l.means.clock) (W.fixed l.means.words) (P.closed l.port) (P.out l.port) (P.faults l.port)) lanes.old.items;
      back = map (λ l. told_of (P.coming l.port) (P.served l.port) (B.sent l.means.backend) (B.given l.means.backend) (T.fixed l.means.clock) (W.fixed l.means.words) (P.closed l.port) (P.out l.port) (P.faults l.port)) lanes.new.items;
      archived = A.sessions archive.old;
      archive = A.sessions archive.new;
      written = S.written output.old;
      now = S.written output.new;
    }) (K.facts result.0) ends.items) }

    // The last one has a next one only where the start of that was refused, with the causes of a start.
    ensures refused { IfErr result.1 (λ e. IfRefused e (λ fault. IsRefused limits book.base (record {
      lent = map (λ l. told_of (P.coming l.port) (P.served l.port) (B.sent l.means.backend) (B.given l.means.backend) (T.fixed l.means.clock) (W.fixed l.means.words) (P.closed l.port) (P.out l.port) (P.faults l.port)) lanes.old.items;
      back = map (λ l. told_of (P.coming l.port) (P.served l.port) (B.sent l.means.backend) (B.given l.means.backend) (T.fixed l.means.clock) (W.fixed l.means.words) (P.closed l.port) (P.out l.port) (P.faults l.port)) lanes.new.items;
      archived = A.sessions archive.old;
      archive = A.sessions archive.new;
      written = S.written output.old;
      now = S.written output.new;
    }) (K.facts result.0) fault)) }

    // Output comes only where the count of the output rose, behind a front of the lines.
    ensures output { IsErrOf result.1 AllFault.Output → Rose (S.faults output.old) (S.faults output.new) × WasCut limits book.base (record {
      lent = map (λ l. told_of (P.coming l.port) (P.served l.port) (B.sent l.means.backend) (B.given l.means.backend) (T.fixed l.means.clock) (W.fixed l.means.words) (P.closed l.port) (P.out l.port) (P.faults l.port)) lanes.old.items;
      back = map (λ l. told_of (P.coming l.port) (P.served l.port) (B.sent l.means.backend) (B.given l.means.backend) (T.fixed l.means.clock) (W.fixed l.means.words) (P.closed l.port) (P.out l.port) (P.faults l.port)) lanes.new.items;
      archived = A.sessions archive.old;
      archive = A.sessions archive.new;
      written = S.written output.old;
      now = S.written output.new;
    }) (K.facts result.0) }
    ensures as_many { length lanes.new.items ≡ length lanes.old.items }
    ensures beside { A.beside archive.new ≡ A.beside archive.old }
{
    let mut book = book;
    for _ in rt.forever() {
        let (served, ends) = match serve_session(rt, alloc, book, lanes) {
            Ok(served) => served,
            Err(unserved) => {
                let (keeper, _, _) = unserved.close();
                return (keeper, Err(AllFault::Memory));
            }
        };
        let told = tell(alloc, output, &served);
        if !follows(told, &ends, served.history()) {
            return finish(served, ends, told, archive);
        }
        match follow(alloc, served, limits, archive) {
            Ok(next) => book = next,
            Err((keeper, fault)) => return (keeper, Err(fault)),
        }
    }
    unreachable!()
}
