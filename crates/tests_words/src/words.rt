// Words, and what they ask for.
use command_words::{Command, read_words};
use gw_base::{Memory, Text};
use std::alloc::Global;
use std::test::Fail;

/// The words, and the command.
type Asked = (&'static [&'static str], &'static str);

const COMMANDS: [Asked; 5] = [
    (&["serve", "memory", "8080", "4"], "serve memory 8080 4"),
    (&["serve", "store.db", "1", "1"], "serve store.db 1 1"),
    (
        &["serve", "store.db", "65535", "8"],
        "serve store.db 65535 8",
    ),
    (
        &["serve", "s", "00000000000000000080", "08"],
        "serve s 80 8",
    ),
    (
        &["load", "18446744073709551615", "300000"],
        "load 18446744073709551615 300000",
    ),
];

fn words_of(alloc: Global, words: &[&str]) -> Result<Vec<Text>, Memory> {
    let mut texts = Vec::new(alloc);
    for word in words {
        texts.push(Text::of(String::from_str(alloc, word)?))?;
    }
    Ok(texts)
}

fn told(alloc: Global, command: &Command) -> Result<String, Memory> {
    Ok(match command {
        Command::Serve { store, port, lanes } => {
            format!(in alloc; "serve {} {port} {lanes}", store.as_str())?
        }
        Command::Load { seed, calls } => format!(in alloc; "load {seed} {calls}")?,
        _ => String::from_str(alloc, "another command")?,
    })
}

fn answer(alloc: Global, words: &[&str]) -> Result<String, Memory> {
    let words = words_of(alloc, words)?;
    match read_words(alloc, &words)? {
        Some(command) => told(alloc, &command),
        None => Ok(String::from_str(alloc, "none")?),
    }
}

#[test]
fn words_ask_for_a_command(rt: HostRuntime) -> Result<(), Fail> {
    for (words, wanted) in &COMMANDS {
        let answer = answer(rt.alloc(), words)?;
        assert_eq!(rt; answer.as_str(), *wanted);
    }
    Ok(())
}
