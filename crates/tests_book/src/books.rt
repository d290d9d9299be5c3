// Books over keepers in memory.
use api_model::Api;
use book_core::{Book, StartFault, StepFault};
use book_rules::{Command, Event, Limits, Reply};
use call_facts::{Kind, Vars};
use gw_base::{Memory, Seq, Shared, Text};
use keeper_core::{MemKeeper, Table, Tables};
use std::alloc::Global;
use std::test::Fail;

pub(crate) const LIMITS: Limits = Limits {
    entries: 20,
    bytes: 1000,
};

/// An event of the tests: about the API `a` and its stage `s`, which points to deployment 1.
#[derive(Clone, Copy)]
pub(crate) enum Step {
    Put,
    Deploy,
    Stage,
    Shut,
    Enter,
    Leave,
}

/// What some steps came to.
#[derive(Drop)]
struct Played {
    replies: String,
    calls: u64,
    not_kept: u64,
    deployments: u64,
    vars: Text,
}

pub(crate) fn text(alloc: Global, from: &str) -> Result<Text, Memory> {
    Ok(Text::of(String::from_str(alloc, from)?))
}

fn definition(alloc: Global) -> Result<Shared<Api>, Memory> {
    match Api::text(alloc, "Hi $input.body!") {
        Ok(api) => Ok(Shared::new(alloc, api)?),
        Err(_) => Err(Memory),
    }
}

fn variables(alloc: Global) -> Result<Shared<Vars>, Memory> {
    let mut pairs = Seq::new(alloc);
    for pair in [("x", "1"), ("y", "2"), ("x", "3"), ("z", "4"), ("y", "a b")] {
        pairs.push((text(alloc, pair.0)?, text(alloc, pair.1)?))?;
    }
    Ok(Shared::new(alloc, Vars { pairs })?)
}

fn put(alloc: Global) -> Result<Command, Memory> {
    Ok(Command::PutApi {
        api: text(alloc, "a")?,
        definition: definition(alloc)?,
    })
}

fn deploy(alloc: Global) -> Result<Command, Memory> {
    Ok(Command::Deploy {
        api: text(alloc, "a")?,
    })
}

fn stage(alloc: Global) -> Result<Command, Memory> {
    Ok(Command::PutStage {
        api: text(alloc, "a")?,
        stage: text(alloc, "s")?,
        deployment: 1,
        variables: variables(alloc)?,
    })
}

fn enter(alloc: Global) -> Result<Event, Memory> {
    Ok(Event::Enter {
        moment: 0,
        word: 0,
        api: text(alloc, "a")?,
        stage: text(alloc, "s")?,
    })
}

fn ask(command: Result<Command, Memory>) -> Result<Event, Memory> {
    Ok(Event::Admin {
        moment: 0,
        command: command?,
    })
}

/// The event of a step.
pub(crate) fn event(alloc: Global, step: Step) -> Result<Event, Memory> {
    match step {
        Step::Put => ask(put(alloc)),
        Step::Deploy => ask(deploy(alloc)),
        Step::Stage => ask(stage(alloc)),
        Step::Shut => ask(Ok(Command::Shutdown)),
        Step::Enter => enter(alloc),
        Step::Leave => Ok(Event::Leave {
            status: 200,
            cause: None,
        }),
    }
}

/// What an event is replied, in a word.
pub(crate) fn word(reply: &Reply) -> &'static str {
    match reply {
        Reply::Entered(_) => "entered ",
        Reply::NoStage => "nostage ",
        Reply::Remembered(_) => "remembered ",
        Reply::NotRemembered => "not ",
        Reply::Learned => "learned ",
        Reply::Admitted { .. } => "admitted ",
        Reply::InvalidKey => "invalid ",
        Reply::Throttled { .. } => "throttled ",
        Reply::QuotaExceeded { .. } => "exceeded ",
        Reply::Usage(_) => "usage ",
        Reply::Store => "store ",
        Reply::Left { closing: true } => "closing ",
        Reply::Left { closing: false } => "left ",
        Reply::Done => "done ",
        Reply::Deployed(_) => "deployed ",
        Reply::Refused(_) => "refused ",
    }
}

fn take(book: &mut Book<MemKeeper>, alloc: Global, step: Step) -> Result<&'static str, Memory> {
    match book.step(alloc, 0, event(alloc, step)?) {
        Ok(reply) => Ok(word(&reply)),
        Err(_) => Ok("fault "),
    }
}

fn take_all(book: &mut Book<MemKeeper>, alloc: Global, steps: &[Step]) -> Result<String, Memory> {
    let mut replies = String::new(alloc);
    for step in steps {
        replies.push_str(take(book, alloc, *step)?)?;
    }
    Ok(replies)
}

fn start(alloc: Global, tables: Tables, fails: &[u32]) -> Result<Book<MemKeeper>, StartFault> {
    let Ok(fails) = Vec::from_slice(alloc, fails) else {
        return Err(StartFault::Memory);
    };
    match Book::start(alloc, MemKeeper::new(tables, fails), LIMITS) {
        Ok(book) => Ok(book),
        Err((_, fault)) => Err(fault),
    }
}

// The variables of the first stage, as they are kept.
fn vars(alloc: Global, tables: &Tables) -> Result<Text, Memory> {
    match tables.stages().first() {
        Some(row) => row.vars.copy(alloc),
        None => text(alloc, "none"),
    }
}

fn describe(alloc: Global, replies: String, book: &Book<MemKeeper>) -> Result<Played, Memory> {
    let counts = book.counts();
    Ok(Played {
        replies,
        calls: counts.calls,
        not_kept: counts.not_kept,
        deployments: book.tables().count(Table::Deployments),
        vars: vars(alloc, book.tables())?,
    })
}

// What some steps come to over empty tables, where these calls of the keeper fail.
fn play(alloc: Global, fails: &[u32], steps: &[Step]) -> Result<Played, Memory> {
    let Ok(mut book) = start(alloc, Tables::new(alloc), fails) else {
        return Err(Memory);
    };
    let replies = take_all(&mut book, alloc, steps)?;
    describe(alloc, replies, &book)
}

// What more steps come to over the tables that some steps left.
fn play_on(alloc: Global, steps: &[Step], more: &[Step]) -> Result<Played, Memory> {
    let Ok(mut book) = start(alloc, Tables::new(alloc), &[]) else {
        return Err(Memory);
    };
    take_all(&mut book, alloc, steps)?;
    let (_, tables, _) = book.close();
    let Ok(mut next) = start(alloc, tables, &[]) else {
        return Err(Memory);
    };
    let replies = take_all(&mut next, alloc, more)?;
    describe(alloc, replies, &next)
}

#[test]
fn changes_are_kept(rt: HostRuntime) -> Result<(), Fail> {
    let steps = [
        Step::Enter,
        Step::Put,
        Step::Deploy,
        Step::Stage,
        Step::Enter,
    ];
    let played = play(rt.alloc(), &[], &steps)?;
    assert_eq!(rt;
        played.replies.as_str(),
        "nostage done deployed done entered "
    );
    assert_eq!(rt; played.vars.as_str(), "x=3 z=4 y=a%20b");
    assert_eq!(rt; played.calls, 2);
    assert_eq!(rt; played.not_kept, 0);
    Ok(())
}

#[test]
fn a_lost_change_leaves_the_tables(rt: HostRuntime) -> Result<(), Fail> {
    let steps = [
        Step::Put,
        Step::Deploy,
        Step::Stage,
        Step::Put,
        Step::Deploy,
    ];
    let played = play(rt.alloc(), &[1, 5], &steps)?;
    assert_eq!(rt;
        played.replies.as_str(),
        "store refused refused done store "
    );
    assert_eq!(rt; played.deployments, 0);
    assert_eq!(rt; played.not_kept, 2);
    Ok(())
}

#[test]
fn a_number_that_was_lost_is_given_again(rt: HostRuntime) -> Result<(), Fail> {
    let steps = [
        Step::Put,
        Step::Deploy,
        Step::Deploy,
        Step::Stage,
        Step::Enter,
    ];
    let played = play(rt.alloc(), &[3], &steps)?;
    assert_eq!(rt;
        played.replies.as_str(),
        "done store deployed done entered "
    );
    assert_eq!(rt; played.deployments, 1);
    Ok(())
}

#[test]
fn a_load_that_fails_is_told(rt: HostRuntime) -> Result<(), Fail> {
    match start(rt.alloc(), Tables::new(rt.alloc()), &[0]) {
        Ok(_) => Err(Fail::new("the book started")),
        Err(fault) => {
            assert!(rt; fault == StartFault::StoreFault);
            Ok(())
        }
    }
}

#[test]
fn a_shutdown_closes(rt: HostRuntime) -> Result<(), Fail> {
    let played = play(rt.alloc(), &[], &[Step::Leave, Step::Shut, Step::Leave])?;
    assert_eq!(rt; played.replies.as_str(), "left done closing ");
    Ok(())
}

#[test]
fn a_book_goes_on_over_what_another_left(rt: HostRuntime) -> Result<(), Fail> {
    let before = [Step::Put, Step::Deploy, Step::Stage];
    let played = play_on(rt.alloc(), &before, &[Step::Enter, Step::Deploy])?;
    assert_eq!(rt; played.replies.as_str(), "entered deployed ");
    assert_eq!(rt; played.deployments, 2);
    assert_eq!(rt; played.vars.as_str(), "x=3 z=4 y=a%20b");
    Ok(())
}

// What a book of one entry answers to a request that leaves.
fn leave_full(alloc: Global) -> Result<Option<StepFault>, Memory> {
    let limits = Limits {
        entries: 1,
        bytes: 1000,
    };
    let keeper = MemKeeper::new(Tables::new(alloc), Vec::new(alloc));
    let Ok(mut book) = Book::start(alloc, keeper, limits) else {
        return Err(Memory);
    };
    take(&mut book, alloc, Step::Enter)?;
    let leave = Event::Leave {
        status: 403,
        cause: Some(Kind::UnknownStage),
    };
    Ok(book.step(alloc, 0, leave).err())
}

// Enter takes the room, and Leave is refused with the history's numbers.
#[test]
fn a_book_of_one_entry_is_full(rt: HostRuntime) -> Result<(), Fail> {
    let full = StepFault::SessionFull {
        entries: 1,
        bytes: 2,
    };
    assert_eq!(rt; leave_full(rt.alloc())?, Some(full));
    Ok(())
}
