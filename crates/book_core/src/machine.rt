// A book behind a desk.
use crate::base::Base;
use crate::book::{Book, StepFault};
use book_rules::{Entry, Event, Reply};
use keeper_core::Keeper;
use std::alloc::Global;
use turn_desk::Machine;

impl<K: Keeper> Machine for Book<K> {
    ghost use Rattle.book_rules.specs.History.{Answers};
    ghost use Rattle.book_core.specs.Books.{Refuses};

    type Event = Event;

    type Entry = Entry;

    type Base = Base;

    type Reply = Reply;

    type Fault = StepFault;

    ghost base = { λ b. b.base };

    ghost history = { λ b. b.history };

    ghost seat_of = { λ e. e.seat };

    ghost event_of = { λ e. e.event };

    ghost answers = { Answers };

    ghost refuses = { Refuses };

    fn step(&mut self, alloc: Global, seat: u32, event: Event) -> Result<Reply, StepFault> {
        self.step(alloc, seat, event)
    }
}
