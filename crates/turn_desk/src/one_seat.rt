// A desk of one seat.
ghost use Rattle.std.specs.Prelude.{◌≡◌, [], ◌∷◌, ◌++◌, IfOk, IfErr};

use crate::desk::Desk;
use crate::machine::Machine;
use crate::seat::Seat;
use std::alloc::Global;
use std::marker::Model;
use std::snapshot::Snapshot;
use std::sync::Wait;

/// A machine behind a desk of one seat, number 0: so each entry of the history is that seat's, and each call goes on from
/// the history that the call before it left.
///
/// Contracts see what no step changes, as `base`, and the history. It is no value to drop: only [`OneSeat::close`] ends it.
pub struct OneSeat<M: Machine> {
    desk: Desk<M>,
    seat: Option<Seat<M>>,
    started: Snapshot<M>,
}

impl<M: Machine> Model for OneSeat<M> {
    ghost use Rattle.turn_desk.specs.OneSeat.{OneSeatFacts, seen_by, IsTheOne};

    ghost Value = { OneSeatFacts M.Entry M.Base };

    ghost view = { λ s. record { base = M.base s.started.value; history = seen_by s.seat } };

    ghost invariant = { λ s. IsTheOne s.desk (M.base s.started.value) s.seat };
}

impl<M: Machine> OneSeat<M> {
    /// A machine with an empty history, behind its desk.
    ///
    /// `Err` hands the machine back, and comes only where memory is wanting.
    pub fn start(alloc: Global, machine: M) -> Result<OneSeat<M>, M>
        requires fresh { M.history machine ≡ [] }
        ensures started { IfOk result (λ s. s ≡ record { base = M.base machine; history = [] }) }
        ensures same { IfErr result (λ m. m ≡ machine) }
    {
        let started = Snapshot::of(&machine);
        let (desk, seat) = Desk::start(alloc, machine, 1)?;
        Ok(OneSeat {
            desk,
            seat: Some(seat),
            started,
        })
    }

    /// One step of the machine.
    pub fn call<R: Wait>(
        &mut self,
        rt: &R,
        alloc: Global,
        event: M::Event,
    ) -> Result<M::Reply, M::Fault>
        ensures base { self.new.base ≡ self.old.base }
        ensures taken { IfOk result (λ r. (e : M.Entry) × (self.new.history ≡ self.old.history ++ e ∷ []) × (M.seat_of e ≡ 0) × (M.event_of e ≡ event) × M.answers self.old.base self.old.history e r) }
        ensures refused { IfErr result (λ f. (self.new.history ≡ self.old.history) × M.refuses self.old.base self.old.history 0 event f) }
    {
        let Some(seat) = self.seat.take() else {
            unreachable!()
        };
        let (seat, answer) = self.desk.call(rt, alloc, seat, event);
        self.seat = Some(seat);
        answer
    }

    /// The machine.
    pub fn close(self) -> M
        ensures base { M.base result ≡ self.base }
        ensures history { M.history result ≡ self.history }
    {
        let OneSeat {
            desk,
            seat,
            started: _,
        } = self;
        let Some(seat) = seat else { unreachable!() };
        desk.close(seat)
    }
}
