// Policies that a book remembers.
use crate::books::{Step, event, text, word};
use book_core::{Book, StepFault};
use book_rules::{Command, Event, Limits};
use gw_base::{Memory, Seq, Shared, Text};
use keeper_core::{MemKeeper, Tables};
use policy_core::{Policy, Statement};
use policy_memory::PolicyName;
use std::alloc::Global;
use std::test::Fail;

/// What is asked of the book, at the stage `s` of the API `a` where it names none.
#[derive(Clone, Copy)]
enum Asked {
    Made(Step),
    /// A policy is learned for 10 seconds at this moment.
    Learn(u64),
    Recall(u64),
    /// A stage is flushed.
    Flush(&'static str),
}

fn name(alloc: Global) -> Result<PolicyName, Memory> {
    Ok(PolicyName {
        api: text(alloc, "a")?,
        stage: text(alloc, "s")?,
        authorizer: text(alloc, "g")?,
        token: text(alloc, "t")?,
    })
}

fn texts(alloc: Global, only: &str) -> Result<Seq<Text>, Memory> {
    let mut made = Seq::new(alloc);
    made.push(text(alloc, only)?)?;
    Ok(made)
}

// A policy of six bytes.
fn policy(alloc: Global) -> Result<Shared<Policy>, Memory> {
    let mut statements = Seq::new(alloc);
    statements.push(Statement {
        allow: true,
        actions: texts(alloc, "*")?,
        resources: texts(alloc, "*")?,
    })?;
    let mut context = Seq::new(alloc);
    context.push((text(alloc, "k")?, text(alloc, "v")?))?;
    Shared::new(
        alloc,
        Policy {
            principal: text(alloc, "p1")?,
            statements,
            context,
        },
    )
}

fn learn(alloc: Global, moment: u64) -> Result<Event, Memory> {
    Ok(Event::Learn {
        moment,
        name: name(alloc)?,
        policy: policy(alloc)?,
        ttl: 10,
    })
}

fn event_of(alloc: Global, step: Asked) -> Result<Event, Memory> {
    match step {
        Asked::Made(step) => event(alloc, step),
        Asked::Learn(moment) => learn(alloc, moment),
        Asked::Recall(moment) => Ok(Event::Recall {
            moment,
            name: name(alloc)?,
        }),
        Asked::Flush(stage) => Ok(Event::Admin {
            moment: 0,
            command: Command::Flush {
                api: text(alloc, "a")?,
                stage: text(alloc, stage)?,
            },
        }),
    }
}

fn start(alloc: Global, bytes: u64) -> Result<Book<MemKeeper>, Memory> {
    let limits = Limits { entries: 20, bytes };
    let keeper = MemKeeper::new(Tables::new(alloc), Vec::new(alloc));
    match Book::start(alloc, keeper, limits) {
        Ok(book) => Ok(book),
        Err(_) => Err(Memory),
    }
}

fn play(alloc: Global, steps: &[Asked]) -> Result<String, Memory> {
    let mut book = start(alloc, 1000)?;
    let mut replies = String::new(alloc);
    for step in steps {
        match book.step(alloc, 0, event_of(alloc, *step)?) {
            Ok(reply) => replies.push_str(word(&reply))?,
            Err(_) => replies.push_str("fault ")?,
        }
    }
    Ok(replies)
}

// A policy is used below its moment and its seconds, and behind no flush of its stage. Time never falls.
#[test]
fn a_policy_is_remembered_for_its_seconds(rt: HostRuntime) -> Result<(), Fail> {
    let steps = [
        Asked::Recall(0),
        Asked::Learn(1_000),
        Asked::Recall(10_999),
        Asked::Recall(0),
        Asked::Recall(11_000),
        Asked::Learn(11_000),
        Asked::Recall(11_000),
        Asked::Flush("s"),
        Asked::Recall(11_000),
    ];
    assert_eq!(rt;
        play(rt.alloc(), &steps)?.as_str(),
        "not learned remembered remembered not learned remembered refused remembered "
    );
    Ok(())
}

#[test]
fn a_flush_of_a_stage_forgets(rt: HostRuntime) -> Result<(), Fail> {
    let steps = [
        Asked::Made(Step::Put),
        Asked::Made(Step::Deploy),
        Asked::Made(Step::Stage),
        Asked::Learn(0),
        Asked::Recall(0),
        Asked::Flush("q"),
        Asked::Recall(0),
        Asked::Flush("s"),
        Asked::Recall(0),
        Asked::Learn(0),
        Asked::Recall(0),
    ];
    assert_eq!(rt;
        play(rt.alloc(), &steps)?.as_str(),
        "done deployed done learned remembered refused remembered done not learned remembered "
    );
    Ok(())
}

fn learn_within(alloc: Global, bytes: u64) -> Result<Option<StepFault>, Memory> {
    let mut book = start(alloc, bytes)?;
    Ok(book.step(alloc, 0, learn(alloc, 0)?).err())
}

// The name has four bytes, and the policy six.
#[test]
fn a_policy_counts_towards_the_bytes(rt: HostRuntime) -> Result<(), Fail> {
    let full = StepFault::SessionFull {
        entries: 0,
        bytes: 0,
    };
    assert_eq!(rt; learn_within(rt.alloc(), 9)?, Some(full));
    assert_eq!(rt; learn_within(rt.alloc(), 10)?, None);
    Ok(())
}
