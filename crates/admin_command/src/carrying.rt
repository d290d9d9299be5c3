// Lines of commands, one by one.
ghost use Rattle.std.specs.Prelude.{◌≡◌, ◌⊎◌, ◌<◌, ◌^◌, ℕ, List, [], IfOk, OnErr, length, true};
ghost use Rattle.std.specs.Io.KnownBytes.{Appends};
ghost use Rattle.book_rules.specs.declared.events.Event.TheVariants.{Admin};
ghost use Rattle.gw_base.specs.Outside.{HasWriteCause};
ghost use Rattle.script_records.specs.Coding.{lines_of};
ghost use Rattle.play_script.specs.Play.{Turn, IsFront, SaysFront, status_at, is_command_status};
ghost use Rattle.admin_command.specs.Administering.{IsTaken, IsFull, IsTurn, Administers, CarriedOut, Came};

use crate::lines::asked_in;
use crate::orders::Order;
use book_core::{Book, StepFault};
use book_rules::Event;
use gate_walk::SessionFull;
use gw_base::{Memory, Sink, Text, WriteStop, write_all};
use keeper_core::Keeper;
use play_script::{End, Said, full_line, refuse, reply_line};
use script_records::{first_line, is_passed_over};
use std::alloc::Global;

fn status(end: End) -> u8
    ensures value { result ≡ status_at end }
    ensures known { is_command_status result ≡ true }
{
    match end {
        End::Refused => 1,
        End::Full => 4,
    }
}

// Carries out a command, and says its reply.
fn carry_out<K: Keeper>(book: &mut Book<K>, alloc: Global, order: Order) -> Result<Said, Memory>
    ensures does { IfOk result (λ said. IsTaken book.old.base book.old.history (Admin order.moment order.command) (record { history = book.new.history; text = said.text; ends = said.ends })
        ⊎ IsFull book.old.base book.old.history (Admin order.moment order.command) (record { history = book.new.history; text = said.text; ends = said.ends })) }
    ensures cut { OnErr result ((book.new.history ≡ book.old.history)
        ⊎ ((now : Turn) × IsTaken book.old.base book.old.history (Admin order.moment order.command) now × (book.new.history ≡ now.history))) }
    ensures base { book.new.base ≡ book.old.base }
{
    let Order { moment, command } = order;
    match book.step(alloc, 0, Event::Admin { moment, command }) {
        Ok(reply) => Ok(Said {
            text: reply_line(alloc, &reply)?,
            ends: None,
        }),
        Err(StepFault::SessionFull { entries, bytes }) => Ok(Said {
            text: full_line(alloc, SessionFull { entries, bytes })?,
            ends: Some(End::Full),
        }),
        Err(StepFault::Memory) => Err(Memory),
    }
}

// Does what a line asks for.
fn do_line<K: Keeper>(
    book: &mut Book<K>,
    alloc: Global,
    number: u64,
    line: &[u8],
) -> Result<Said, Memory>
    ensures does { IfOk result (λ said. IsTurn book.old.base number book.old.history line.now (record { history = book.new.history; text = said.text; ends = said.ends })) }
    ensures cut { OnErr result ((book.new.history ≡ book.old.history)
        ⊎ ((now : Turn) × IsTurn book.old.base number book.old.history line.now now × (book.new.history ≡ now.history))) }
    ensures base { book.new.base ≡ book.old.base }
{
    if is_passed_over(line) {
        return Ok(Said {
            text: Text::of(String::new(alloc)),
            ends: None,
        });
    }
    match asked_in(alloc, line)? {
        Ok(order) => carry_out(book, alloc, order),
        Err(fault) => refuse(alloc, number, fault),
    }
}

// Does what a line asks for and prints what it says; answers why no further line is carried out, where none is.
fn say_line<K: Keeper, W: Sink>(
    book: &mut Book<K>,
    alloc: Global,
    output: &mut W,
    number: u64,
    line: &[u8],
) -> Result<Option<End>, WriteStop>
    ensures said { IfOk result (λ ends. (text : List ℕ) × IsTurn book.old.base number book.old.history line.now (record { history = book.new.history; text = text; ends = ends })
        × Appends (W.written output.old) (W.written output.new) text) }
    ensures cut { OnErr result (SaysFront (W.written output.old) (W.written output.new)
        (λ front. ((front ≡ []) × (book.new.history ≡ book.old.history))
        ⊎ ((now : Turn) × IsTurn book.old.base number book.old.history line.now now × (book.new.history ≡ now.history) × IsFront front now.text))) }
    ensures cause { HasWriteCause (W.faults output.old) (W.faults output.new) result }
    ensures base { book.new.base ≡ book.old.base }
{
    let said = do_line(book, alloc, number, line)?;
    write_all(output, said.text.as_str().as_bytes())?;
    Ok(said.ends)
}

/// Carries out lines, from the first on, and prints what they say: answers the status.
pub fn carry_out_lines<K: Keeper, W: Sink>(
    book: &mut Book<K>,
    alloc: Global,
    output: &mut W,
    lines: &[u8],
) -> Result<u8, WriteStop>
    requires number { length lines.now < 2 ^ 63 }
    requires first { book.old.history ≡ [] }
    ensures all { IfOk result (λ status. (came : Came) × Administers book.old.base 1 [] (lines_of lines.now) came × (book.new.history ≡ came.history)
        × (status ≡ came.status) × Appends (W.written output.old) (W.written output.new) came.text) }
    ensures cut { OnErr result ((front : List ℕ) × CarriedOut book.old.base 1 [] (lines_of lines.now) front book.new.history
        × Appends (W.written output.old) (W.written output.new) front) }
    ensures known { IfOk result (λ status. is_command_status status ≡ true) }
    ensures cause { HasWriteCause (W.faults output.old) (W.faults output.new) result }
    ensures base { book.new.base ≡ book.old.base }
{
    let mut rest = lines;
    let mut number: u64 = 1;
    'lines: loop {
        let (line, more) = first_line(rest);
        if let Some(end) = say_line(book, alloc, output, number, line)? {
            return Ok(status(end));
        }
        let Some(next) = more else {
            return Ok(0);
        };
        rest = next;
        number += 1;
    }
}
