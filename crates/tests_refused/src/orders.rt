// An order over a session, record by record.
use crate::came::Came;
use book_rules::{Command, Entry, Event, Limits};
use gw_base::Memory;
use keeper_core::{Table, Tables};
use play_script::play_line;
use play_session::{Session, SessionFault};
use record_fields::encode;
use std::alloc::Global;
use std::sync::Wait;
use std::test::Fail;
use tests_orders::{ALLOWS, ANSWER, ASKED, COMMANDS, DONE, ORDER, SENT, TAKEN, USAGE, USED_ONCE};

/// The record of an order, and what it prints.
#[derive(Drop)]
pub(crate) struct Order {
    pub record: String,
    pub said: String,
}

fn joined(alloc: Global, parts: &[&[u8]]) -> Result<Vec<u8>, Memory> {
    let mut all = Vec::new(alloc);
    for part in parts {
        all.extend_from_slice(part)?;
    }
    Ok(all)
}

// Words, each with bytes that are coded behind it.
fn coded(alloc: Global, parts: &[(&str, &[u8])]) -> Result<String, Memory> {
    let mut text = String::new(alloc);
    for (word, bytes) in parts {
        text.push_str(word)?;
        text.push_str(encode(alloc, bytes)?.as_str())?;
    }
    Ok(text)
}

pub(crate) fn make_order(alloc: Global) -> Result<Order, Memory> {
    let bytes = joined(alloc, &ORDER)?;
    let record = coded(
        alloc,
        &[("call 0 0 ", bytes.as_slice()), (" ", ALLOWS), (" ", TAKEN)],
    )?;
    let mut said = coded(
        alloc,
        &[("sent ", ASKED), ("\nsent ", SENT), ("\nanswer ", ANSWER)],
    )?;
    said.push_str("\nended Closed\n")?;
    Ok(Order { record, said })
}

/// The whole history: six commands, an order, and the record that asks for the use of its key.
const WHOLE: [&'static str; 12] = [
    "api", "deploy", "stage", "key", "plan", "join", "enter", "recall", "learn", "admit", "leave",
    "usage",
];

fn word_of(command: &Command) -> &'static str {
    match command {
        Command::PutApi { .. } => "api",
        Command::Deploy { .. } => "deploy",
        Command::PutStage { .. } => "stage",
        Command::PutKey { .. } => "key",
        Command::PutPlan { .. } => "plan",
        Command::JoinKey { .. } => "join",
        Command::Usage { .. } => "usage",
        _ => "another",
    }
}

fn word(event: &Event) -> &'static str {
    match event {
        Event::Admin { command, .. } => word_of(command),
        Event::Enter { .. } => "enter",
        Event::Recall { .. } => "recall",
        Event::Learn { .. } => "learn",
        Event::Admit { .. } => "admit",
        Event::Leave {
            status: 201,
            cause: None,
        } => "leave",
        Event::Leave { .. } => "another",
    }
}

// Whether these entries begin the whole history.
fn is_front(history: &[Entry]) -> bool {
    history.len() <= WHOLE.len()
        && history
            .iter()
            .zip(&WHOLE)
            .all(|(entry, kind)| entry.kept && word(&entry.event) == *kind)
}

/// The tables into which the first six entries put a row each.
const FILLED: [Table; 6] = [
    Table::Apis,
    Table::Deployments,
    Table::Stages,
    Table::Keys,
    Table::Plans,
    Table::Joins,
];

// Whether the key's use is that behind so many entries: the tenth admits the order.
fn has_use(tables: &Tables, entries: usize) -> bool {
    let (used, level) = if entries < 10 {
        (0, 20_000)
    } else {
        (1, 19_000)
    };
    match tables.join("gold", "k1") {
        Some(row) => row.used == used && row.level == level,
        None => entries < 6,
    }
}

// Whether these are the tables behind so many entries.
fn are_of(tables: &Tables, entries: usize) -> bool {
    let mut filled = FILLED.iter().enumerate();
    has_use(tables, entries)
        && filled.all(|(place, table)| {
            tables.count(*table) == if place < entries { 1 } else { 0 }
        })
}

// Whether a record prints this.
fn prints<R: Wait>(
    session: &mut Session<'_, R>,
    alloc: Global,
    record: &str,
    said: &str,
) -> Result<bool, Memory> {
    let printed = play_line(session, alloc, 1, record.as_bytes())?;
    Ok(printed.text.as_str() == said)
}

// Whether the records print what they are to print, one behind another.
fn play_all<R: Wait>(
    session: &mut Session<'_, R>,
    alloc: Global,
    order: &Order,
) -> Result<bool, Memory> {
    for (line, done) in COMMANDS.iter().zip(&DONE) {
        if !prints(session, alloc, line, done)? {
            return Ok(false);
        }
    }
    if !prints(session, alloc, order.record.as_str(), order.said.as_str())? {
        return Ok(false);
    }
    prints(session, alloc, USAGE, USED_ONCE)
}

const LIMITS: Limits = Limits {
    entries: 100,
    bytes: 10_000,
};

// What comes of a session that is begun for this order.
fn came<R: Wait>(rt: &R, alloc: Global, order: &Order) -> Came {
    let mut session = match Session::start(rt, alloc, LIMITS, Vec::new(alloc)) {
        Ok(session) => session,
        Err(SessionFault::Memory) => return Came::Memory(0, "entries"),
        Err(SessionFault::Keeper) => return Came::Wrong("the load failed"),
    };
    let played = play_all(&mut session, alloc, order);
    let (keeper, tables, history) = session.close().close();
    if !is_front(&history) {
        return Came::Wrong("the history is no front of the whole one");
    }
    if !are_of(&tables, history.len()) || !are_of(keeper.tables(), history.len()) {
        return Came::Wrong("the tables are not those of the history");
    }
    match played {
        Err(Memory) => Came::Memory(history.len(), "entries"),
        Ok(whole) if whole && history.len() == WHOLE.len() => Came::Whole,
        Ok(_) => Came::Wrong("a record prints something else"),
    }
}

#[test]
fn an_order_is_played_or_memory_is_wanting(rt: HostRuntime) -> Result<(), Fail> {
    let alloc = rt.alloc();
    let came = match make_order(alloc) {
        Ok(order) => came(&rt, alloc, &order),
        Err(_) => Came::Nothing,
    };
    println!(rt; "came: {came}")?;
    assert!(rt; came.may_come());
    Ok(())
}
