// What is learned and flushed, and what is remembered then.
use gw_base::{Memory, Seq, Shared, Text};
use policy_core::Policy;
use policy_memory::{Lesson, PolicyMemory, PolicyName};
use std::alloc::Global;
use std::process::Abort;
use std::test::Fail;

/// What is done; and a look, with the principal that it is to find.
#[derive(Clone, Copy)]
enum Step {
    /// At a stage and under a token: the principal, the seconds and the moment.
    Learn(&'static str, &'static str, &'static str, u32, u64),
    /// A stage.
    Flush(&'static str),
    /// A stage, a token and a moment.
    Ask(&'static str, &'static str, u64, Option<&'static str>),
}

use Step::{Ask, Flush, Learn};

const STEPS: [Step; 20] = [
    Ask("test", "a", 0, None),
    // It is used from its moment on, below 10 seconds later.
    Learn("test", "a", "first", 10, 1_000),
    Ask("test", "a", 1_000, Some("first")),
    Ask("test", "a", 10_999, Some("first")),
    Ask("test", "a", 11_000, None),
    // Another token, and another stage.
    Ask("test", "b", 1_000, None),
    Ask("prod", "a", 1_000, None),
    Learn("prod", "a", "other", 10, 1_000),
    // A flush forgets what was learned at its stage.
    Flush("test"),
    Ask("test", "a", 1_000, None),
    Ask("prod", "a", 1_000, Some("other")),
    // What is learned behind it stands.
    Learn("test", "a", "second", 10, 5_000),
    Ask("test", "a", 14_999, Some("second")),
    Ask("test", "a", 15_000, None),
    Flush("prod"),
    Ask("prod", "a", 1_000, None),
    Ask("test", "a", 14_999, Some("second")),
    // No seconds are none.
    Learn("test", "a", "third", 0, 6_000),
    Ask("test", "a", 6_000, None),
    Ask("test", "a", 5_999, Some("third")),
];

fn text(alloc: Global, text: &str) -> Result<Text, Memory> {
    Ok(Text::of(String::from_str(alloc, text)?))
}

fn named(alloc: Global, stage: &str, token: &str) -> Result<PolicyName, Memory> {
    Ok(PolicyName {
        api: text(alloc, "hello")?,
        stage: text(alloc, stage)?,
        authorizer: text(alloc, "gate")?,
        token: text(alloc, token)?,
    })
}

fn numbered(alloc: Global, stage: &str, number: u64) -> Result<PolicyName, Memory> {
    let token = format!(in alloc; "{number}")?;
    named(alloc, stage, token.as_str())
}

fn policy_of(alloc: Global, principal: &str) -> Result<Shared<Policy>, Memory> {
    Shared::new(
        alloc,
        Policy {
            principal: text(alloc, principal)?,
            statements: Seq::new(alloc),
            context: Seq::new(alloc),
        },
    )
}

fn lesson_of(alloc: Global, place: u64) -> Result<Lesson, Memory> {
    Ok(Lesson {
        policy: policy_of(alloc, "anyone")?,
        ttl: 1,
        at: 0,
        place,
    })
}

fn recalled<'a>(memory: &'a PolicyMemory, name: &PolicyName, t: u64) -> Option<&'a str> {
    match memory.recall(name, t) {
        Some(policy) => Some(policy.value().principal.as_str()),
        None => None,
    }
}

fn take_step(
    rt: &impl Abort,
    alloc: Global,
    memory: &mut PolicyMemory,
    step: Step,
    place: u64,
) -> Result<(), Memory> {
    match step {
        Learn(stage, token, principal, ttl, at) => memory.learn(
            named(alloc, stage, token)?,
            Lesson {
                policy: policy_of(alloc, principal)?,
                ttl,
                at,
                place,
            },
        ),
        Flush(stage) => memory.flush(alloc, "hello", stage, place),
        Ask(stage, token, t, wanted) => {
            let name = named(alloc, stage, token)?;
            let found = recalled(memory, &name, t);
            assert!(rt; found == wanted);
            Ok(())
        }
    }
}

#[test]
fn what_was_learned_stands_until_its_end_or_a_flush(rt: HostRuntime) -> Result<(), Fail> {
    let mut memory = PolicyMemory::start(rt.alloc())?;
    for (place, step) in STEPS.iter().enumerate() {
        take_step(&rt, rt.alloc(), &mut memory, *step, place as u64)?;
    }
    Ok(())
}

#[test]
fn one_name_more_pushes_out_the_first(rt: HostRuntime) -> Result<(), Fail> {
    let alloc = rt.alloc();
    let mut memory = PolicyMemory::start(alloc)?;
    let first = numbered(alloc, "test", 0)?;
    for number in 0..1_025 {
        memory.learn(numbered(alloc, "test", number)?, lesson_of(alloc, number)?)?;
        // A look renews no place.
        let is_there = memory.recall(&first, 0).is_some();
        assert_eq!(rt; is_there, number < 1_024);
    }
    assert!(rt; memory.recall(&numbered(alloc, "test", 1)?, 0).is_some());
    assert!(rt; memory.recall(&numbered(alloc, "test", 1_024)?, 0).is_some());
    Ok(())
}

#[test]
fn a_name_that_is_learned_again_has_the_last_place(rt: HostRuntime) -> Result<(), Fail> {
    let alloc = rt.alloc();
    let mut memory = PolicyMemory::start(alloc)?;
    for number in 0..1_024 {
        memory.learn(numbered(alloc, "test", number)?, lesson_of(alloc, number)?)?;
    }
    memory.learn(numbered(alloc, "test", 0)?, lesson_of(alloc, 1_024)?)?;
    memory.learn(numbered(alloc, "test", 1_024)?, lesson_of(alloc, 1_025)?)?;
    assert!(rt; memory.recall(&numbered(alloc, "test", 0)?, 0).is_some());
    assert!(rt; memory.recall(&numbered(alloc, "test", 1)?, 0).is_none());
    Ok(())
}

#[test]
fn a_flush_frees_no_place(rt: HostRuntime) -> Result<(), Fail> {
    let alloc = rt.alloc();
    let mut memory = PolicyMemory::start(alloc)?;
    let first = numbered(alloc, "prod", 0)?;
    memory.learn(numbered(alloc, "prod", 0)?, lesson_of(alloc, 0)?)?;
    for number in 1..1_024 {
        memory.learn(numbered(alloc, "test", number)?, lesson_of(alloc, number)?)?;
    }
    memory.flush(alloc, "hello", "test", 1_024)?;
    assert!(rt; memory.recall(&first, 0).is_some());
    memory.learn(numbered(alloc, "prod", 1_024)?, lesson_of(alloc, 1_025)?)?;
    assert!(rt; memory.recall(&first, 0).is_none());
    Ok(())
}
