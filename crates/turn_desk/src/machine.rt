// What stands behind the turn.
ghost use Rattle.std.specs.Prelude.{◌≡◌, ℕ, List, [], ◌∷◌, ◌++◌, IfOk, IfErr};

use std::alloc::Global;

/// A state that goes on by events. Each event that it takes makes one entry at the end of its history.
///
/// The meanings: `base` is what no step changes; `history` has the entries so far, oldest first; `seat_of` and
/// `event_of` give an entry's seat and event; `answers` ties a base, the entries before, an entry and its reply, and
/// `refuses` a base, the entries before, a seat, an event and its fault. The two relations read nothing else of the
/// machine, so a reply is a matter of the place of its entry in the history.
pub trait Machine {
    /// What is asked of the machine.
    type Event;

    /// What the history keeps of an event.
    type Entry;

    /// What no step changes.
    type Base;

    /// The answer to an event that was taken.
    type Reply;

    /// Why an event was refused.
    type Fault;

    ghost base: { Self → Self.Base };

    ghost history: { Self → List Self.Entry };

    ghost seat_of: { Self.Entry → ℕ };

    ghost event_of: { Self.Entry → Self.Event };

    ghost answers: { Self.Base → List Self.Entry → Self.Entry → Self.Reply → Type 0 };

    ghost refuses: { Self.Base → List Self.Entry → ℕ → Self.Event → Self.Fault → Type 0 };

    /// Takes an event of a seat, which makes one entry of that seat and event, or refuses it, which makes none.
    fn step(
        &mut self,
        alloc: Global,
        seat: u32,
        event: Self::Event,
    ) -> Result<Self::Reply, Self::Fault>
        ensures base { base self.new ≡ base self.old }
        ensures taken { IfOk result (λ r. (e : Self.Entry) × (history self.new ≡ history self.old ++ e ∷ []) × (seat_of e ≡ seat) × (event_of e ≡ event) × answers (base self.old) (history self.old) e r) }
        ensures refused { IfErr result (λ f. (history self.new ≡ history self.old) × refuses (base self.old) (history self.old) seat event f) };
}
