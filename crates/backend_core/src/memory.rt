// A backend in memory.
ghost use Rattle.std.specs.Prelude.{◌≡◌, ◌≢◌, [], Some, All, map, drop};
ghost use Rattle.backend_core.specs.Exchanges.{HasStatus, IsCountOf, next_of};
ghost use Rattle.backend_core.specs.Script.{outcome_of, HasReplyStatus, exchanged};

use crate::backend::Backend;
use crate::outcome::Outcome;
use crate::request::WireRequest;
use call_facts::WireReply;
use std::alloc::Global;
use std::collections::VecDeque;
use std::marker::Model;
use std::snapshot::Snapshot;

/// What a script says of one exchange.
#[derive(Drop)]
pub enum Scripted {
    /// The backend replies so.
    Reply(WireReply),
    /// No reply can be had.
    Failed,
    /// No reply comes in time.
    TimedOut,
}

/// A backend that gives the outcomes of a list, one an exchange, and past its end fails. It keeps what it was sent.
#[derive(Drop)]
pub struct MemBackend {
    script: VecDeque<Scripted>,
    sent: Vec<WireRequest>,
    given: Vec<Snapshot<Outcome>>,
    faults: u64,
    lapses: u64,
}

impl Model for MemBackend {
    ghost use Rattle.std.specs.Prelude.{map, All};
    ghost use Rattle.backend_core.specs.Script.{BackendFacts, outcome_of, HasReplyStatus};

    ghost Value = { BackendFacts };

    ghost view = { λ b. record {
      sent = b.sent.items;
      given = map (λ outcome. outcome.value) b.given.items;
      to_come = map outcome_of b.script.items;
      faults = b.faults;
      lapses = b.lapses;
    } };

    ghost invariant = { λ b. All HasReplyStatus b.script.items };
}

impl MemBackend {
    /// A backend that gives these outcomes in their order. It takes no memory.
    pub fn new(alloc: Global, outcomes: Vec<Scripted>) -> Self
        requires { All HasReplyStatus outcomes.items }
        ensures { result ≡ record { sent = []; given = []; to_come = map outcome_of outcomes.items; faults = 0; lapses = 0 } }
    {
        MemBackend {
            script: VecDeque::from(outcomes),
            sent: Vec::new(alloc),
            given: Vec::new(alloc),
            faults: 0,
            lapses: 0,
        }
    }

    /// The requests so far, oldest first.
    pub fn sent(&self) -> &[WireRequest]
        ensures { result.now ≡ self.now.sent }
    {
        self.sent.as_slice()
    }

    /// The requests so far, oldest first, of a backend that is asked no more.
    pub fn into_sent(self) -> Vec<WireRequest>
        ensures { result.items ≡ self.sent }
    {
        let MemBackend { sent, .. } = self;
        sent
    }
}

// Takes the next outcome of a script.
fn next(script: &mut VecDeque<Scripted>) -> Outcome
    requires { All HasReplyStatus script.old.items }
    ensures next { result ≡ next_of (map outcome_of script.old.items) }
    ensures rest { script.new.items ≡ drop 1 script.old.items }
    ensures replies { All HasReplyStatus script.new.items }
    ensures status { HasStatus result }
    ensures outcome { result ≢ Outcome.Memory }
{
    match script.pop_front() {
        Some(Scripted::Reply(reply)) => Outcome::Reply(reply),
        Some(Scripted::TimedOut) => Outcome::TimedOut,
        Some(Scripted::Failed) | None => Outcome::Failed,
    }
}

impl Backend for MemBackend {
    ghost sent = { λ b. Some b.sent };

    ghost given = { λ b. Some b.given };

    ghost to_come = { λ b. Some b.to_come };

    ghost faults = { λ b. b.faults };

    ghost lapses = { λ b. b.lapses };

    ghost tells_given = { λ _ told. told };

    fn exchange(&mut self, alloc: Global, request: &WireRequest) -> Outcome
        ensures status { HasStatus result }
        ensures failures { IsCountOf Outcome.Failed result self.old.faults self.new.faults }
        ensures lapses { IsCountOf Outcome.TimedOut result self.old.lapses self.new.lapses }

        // Want of memory leaves everything. Else the outcome is the next of the list, and this alone changes.
        ensures memory { result ≡ Outcome.Memory → self.new ≡ self.old }
        ensures next { result ≢ Outcome.Memory → result ≡ next_of self.old.to_come }
        ensures exchanged { result ≢ Outcome.Memory → self.new ≡ exchanged self.old request.now result }
    {
        let Ok(copy) = request.copy(alloc) else {
            return Outcome::Memory;
        };
        if self.given.reserve(1).is_err() || self.sent.push(copy).is_err() {
            return Outcome::Memory;
        }
        let outcome = next(&mut self.script);
        let _ = self.given.push(Snapshot::of(&outcome));
        match outcome {
            Outcome::Failed => self.faults = self.faults.saturating_add(1),
            Outcome::TimedOut => self.lapses = self.lapses.saturating_add(1),
            _ => {}
        }
        outcome
    }
}
