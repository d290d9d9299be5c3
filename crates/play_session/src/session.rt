// The book of a play.
ghost use Rattle.std.specs.Prelude.{◌≡◌, ◌≢◌, ◌∷◌, ◌++◌, [], All, map, true, false, Ok, Err, IfOk, IfErr, OnOk, IsErrOf, MatchResult};
ghost use Rattle.gw_base.specs.Feed.{is_listed};
ghost use Rattle.backend_core.specs.Script.{HasReplyStatus, outcome_of};
ghost use Rattle.book_core.specs.Books.{Refuses};
ghost use Rattle.book_rules.specs.History.{Answers};
ghost use Rattle.book_rules.specs.Times.{IsInTime};
ghost use Rattle.book_rules.specs.declared.events.Entry.{Entry};
ghost use Rattle.gate_walk.specs.Told.{ComesTo, reply_at, taken as taken_of};
ghost use Rattle.play_session.specs.Sessions.{IsOfPlay, base_of};

use crate::conn::ScriptConn;
use crate::readings::{FixedWord, Reading};
use backend_core::{MemBackend, Scripted, WireRequest};
use book_core::{Book, StartFault, StepFault};
use book_rules::{Event, Limits, Reply};
use gate_ports::{FreeGate, Means};
use gate_serve::serve_connection;
use gate_walk::{Ended, SessionFull};
use gw_base::{Bytes, FixedClock, Memory};
use keeper_core::{MemKeeper, Tables};
use std::alloc::Global;
use std::marker::Model;
use std::snapshot::Snapshot;
use std::sync::Wait;
use turn_desk::{Desk, Seat};

/// Why a session did not start.
#[derive(Clone, Copy, Debug, PartialEq, Eq)]
pub enum SessionFault {
    /// The keeper's call 0, the load, is told to fail.
    Keeper,
    /// Memory is wanting.
    Memory,
}

/// What a connection came to: the requests that were sent to backends, all bytes that were written on it, and how it ended.
#[derive(Drop)]
pub struct Talk {
    pub sent: Vec<WireRequest>,
    pub written: Bytes,
    pub ended: Ended,
}

/// A book over empty tables in memory, behind a desk whose one seat, number 0, makes every entry, with the handle by which its
/// calls wait. It is no value to drop: only [`Session::close`] ends it.
pub struct Session<'r, R: Wait> {
    rt: &'r R,
    desk: Desk<Book<MemKeeper>>,
    seat: Option<Seat<Book<MemKeeper>>>,
    started: Snapshot<Book<MemKeeper>>,
}

impl<'r, R: Wait> Model for Session<'r, R> {
    ghost use Rattle.play_session.specs.Sessions.{SessionFacts, IsOfPlay, IsSeated};
    ghost use Rattle.turn_desk.specs.OneSeat.{seen_by};

    ghost Value = { SessionFacts };

    ghost view = { λ s. record { base = s.started.value.base; history = seen_by s.seat } };

    ghost invariant = { λ s. IsSeated s.desk s.started.value.base s.seat × IsOfPlay s.started.value.base };
}

// The numbers of a history that is full, unless memory was wanting.
fn full_of(fault: StepFault) -> Result<SessionFull, Memory>
    ensures { MatchResult result (λ full. fault ≡ StepFault.SessionFull full.entries full.bytes) (λ _. fault ≡ StepFault.Memory) }
{
    match fault {
        StepFault::SessionFull { entries, bytes } => Ok(SessionFull { entries, bytes }),
        StepFault::Memory => Err(Memory),
    }
}

// The end of a connection, unless memory was wanting.
fn end_of(ended: Ended) -> Result<Ended, Memory>
    ensures { IfOk result (λ end. (end ≡ ended) × (ended ≢ Ended.Memory)) }
{
    match ended {
        Ended::Memory => Err(Memory),
        _ => Ok(ended),
    }
}

impl<'r, R: Wait> Session<'r, R> {
    /// A session of these limits, the given calls of whose keeper fail, numbered from 0.
    pub fn start(
        rt: &'r R,
        alloc: Global,
        limits: Limits,
        fails: Vec<u32>,
    ) -> Result<Self, SessionFault>
        ensures started { IfOk result (λ s. s ≡ record { base = base_of limits fails.items; history = [] }) }
        ensures loaded { OnOk result (is_listed fails.items 0 ≡ false) }
        ensures failed { IsErrOf result SessionFault.Keeper → is_listed fails.items 0 ≡ true }
    {
        let keeper = MemKeeper::new(Tables::new(alloc), fails);
        let book = match Book::start(alloc, keeper, limits) {
            Ok(book) => book,
            Err((_, StartFault::StoreFault)) => return Err(SessionFault::Keeper),
            Err((_, StartFault::Memory)) => return Err(SessionFault::Memory),
            // Tables without rows have no bad row.
            Err((_, StartFault::BadStore(_, _))) => unreachable!(),
        };
        let started = Snapshot::of(&book);
        match Desk::start(alloc, book, 1) {
            Ok((desk, seat)) => Ok(Session {
                rt,
                desk,
                seat: Some(seat),
                started,
            }),
            Err(_) => Err(SessionFault::Memory),
        }
    }

    // One step of the book.
    fn step(&mut self, alloc: Global, event: Event) -> Result<Reply, StepFault>
        ensures taken { IfOk result (λ reply. (e : Entry) × (self.new.history ≡ self.old.history ++ e ∷ []) × (e.seat ≡ 0) × (e.event ≡ event) × Answers self.old.base self.old.history e reply) }
        ensures refused { IfErr result (λ fault. (self.new.history ≡ self.old.history) × Refuses self.old.base self.old.history 0 event fault) }
        ensures base { self.new.base ≡ self.old.base }
        ensures of_play { IsOfPlay self.old.base }
    {
        let Some(seat) = self.seat.take() else {
            unreachable!()
        };
        let (seat, answer) = self.desk.call(self.rt, alloc, seat, event);
        self.seat = Some(seat);
        answer
    }

    /// Takes an event of the one seat, or tells that the history is full.
    pub fn take(
        &mut self,
        alloc: Global,
        event: Event,
    ) -> Result<Result<Reply, SessionFull>, Memory>
        ensures told { IfOk result (λ r. MatchResult r
            (λ reply. (reply ≡ reply_at self.old.base self.old.history event) × IsInTime reply × (taken_of 0 self.old.base self.old.history event ≡ Ok self.new.history))
            (λ full. (taken_of 0 self.old.base self.old.history event ≡ Err full) × (self.new.history ≡ self.old.history))) }
        ensures base { self.new.base ≡ self.old.base }
    {
        let fault = match self.step(alloc, event) {
            Ok(reply) => return Ok(Ok(reply)),
            Err(fault) => fault,
        };
        let full = full_of(fault)?;
        Ok(Err(full))
    }

    /// Serves the messages in the bytes of a connection, each at this moment and with this word; exchanges with backends come to
    /// these outcomes, one after another, and past their end fail. On want of memory some of its entries may have been made.
    pub fn connect(
        &mut self,
        alloc: Global,
        reading: Reading,
        bytes: &[u8],
        outcomes: Vec<Scripted>,
    ) -> Result<Talk, Memory>
        requires statuses { All HasReplyStatus outcomes.items }
        ensures talks { IfOk result (λ t. ComesTo self.old.base 0 reading.moment reading.word self.old.history bytes.now (map outcome_of outcomes.items)
            (record { history = self.new.history; sent = t.sent.items; written = t.written; ended = t.ended })) }
        ensures base { self.new.base ≡ self.old.base }
    {
        let mut conn = ScriptConn::new(alloc, bytes)?;
        let Some(seat) = self.seat.take() else {
            unreachable!()
        };
        let mut means = Means {
            backend: MemBackend::new(alloc, outcomes),
            clock: FixedClock {
                moment: reading.moment,
            },
            words: FixedWord { word: reading.word },
            gate: FreeGate,
        };
        let (seat, ended, _) = serve_connection(
            self.rt, alloc, &self.desk, seat, &mut conn, &mut means,
        );
        self.seat = Some(seat);
        let ended = end_of(ended)?;
        let Means { backend, .. } = means;
        Ok(Talk {
            sent: backend.into_sent(),
            written: conn.into_written(),
            ended,
        })
    }

    /// The book.
    pub fn close(self) -> Book<MemKeeper>
        ensures base { result.base ≡ self.entry.base }
        ensures history { result.history ≡ self.entry.history }
    {
        let Session {
            rt: _,
            desk,
            seat,
            started: _,
        } = self;
        let Some(seat) = seat else { unreachable!() };
        desk.close(seat)
    }
}
