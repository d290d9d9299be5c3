// Orders whose exchanges come to nothing.
use crate::orders::order;
use crate::played::play;
use record_fields::encode;
use std::alloc::Global;
use std::test::Fail;
use tests_orders::{ALLOWS, ANSWER, ASKED, COMMANDS, DONE, SENT, TAKEN, UNUSED, USAGE, USED_ONCE};

/// What an exchange comes to.
#[derive(Clone, Copy)]
enum Comes {
    Reply(&'static [u8]),
    Failure,
    Lapse,
}

/// What the exchanges of an order come to; what is sent, what is answered, and what is told of the key's use behind it.
#[derive(Clone, Copy)]
struct Row {
    outcomes: &'static [Comes],
    sent: &'static [&'static [u8]],
    answer: &'static [u8],
    usage: &'static str,
}

const AUTHORIZER_FAILURE: &'static [u8] =
    b"HTTP/1.1 500 Internal Server Error\r\ncontent-type: application/json\r\nx-gateway-cause: AUTHORIZER_FAILURE\r\ncontent-length: 31\r\n\r\n{\"message\":\"Authorizer failed\"}";

const INTEGRATION_FAILURE: &'static [u8] =
    b"HTTP/1.1 504 Gateway Timeout\r\ncontent-type: application/json\r\nx-gateway-cause: INTEGRATION_FAILURE\r\ncontent-length: 55\r\n\r\n{\"message\":\"Network error communicating with endpoint\"}";

const INTEGRATION_TIMEOUT: &'static [u8] =
    b"HTTP/1.1 504 Gateway Timeout\r\ncontent-type: application/json\r\nx-gateway-cause: INTEGRATION_TIMEOUT\r\ncontent-length: 40\r\n\r\n{\"message\":\"Endpoint request timed out\"}";

const ROWS: [Row; 5] = [
    Row {
        outcomes: &[Comes::Reply(ALLOWS), Comes::Reply(TAKEN)],
        sent: &[ASKED, SENT],
        answer: ANSWER,
        usage: USED_ONCE,
    },
    // The key is not asked for where the token lets nobody in.
    Row {
        outcomes: &[Comes::Failure],
        sent: &[ASKED],
        answer: AUTHORIZER_FAILURE,
        usage: UNUSED,
    },
    Row {
        outcomes: &[Comes::Lapse],
        sent: &[ASKED],
        answer: AUTHORIZER_FAILURE,
        usage: UNUSED,
    },
    Row {
        outcomes: &[Comes::Reply(ALLOWS), Comes::Failure],
        sent: &[ASKED, SENT],
        answer: INTEGRATION_FAILURE,
        usage: USED_ONCE,
    },
    Row {
        outcomes: &[Comes::Reply(ALLOWS), Comes::Lapse],
        sent: &[ASKED, SENT],
        answer: INTEGRATION_TIMEOUT,
        usage: USED_ONCE,
    },
];

// Puts a word and coded bytes on a text.
fn push(alloc: Global, text: &mut String, word: &str, bytes: &[u8]) -> Result<(), Fail> {
    text.push_str(word)?;
    text.push_str(encode(alloc, bytes)?.as_str())?;
    Ok(())
}

// The commands, an order with these outcomes, and the record of the key's use.
fn script(alloc: Global, outcomes: &[Comes]) -> Result<String, Fail> {
    let mut script = String::new(alloc);
    for line in &COMMANDS {
        script.push_str(line)?;
        script.push('\n')?;
    }
    push(alloc, &mut script, "call 0 0 ", &order(alloc)?)?;
    for outcome in outcomes {
        match outcome {
            Comes::Reply(bytes) => push(alloc, &mut script, " ", bytes)?,
            Comes::Failure => script.push_str(" !failed")?,
            Comes::Lapse => script.push_str(" !lapsed")?,
        }
    }
    script.push('\n')?;
    script.push_str(USAGE)?;
    Ok(script)
}

// What the script of a row is to print.
fn wanted(alloc: Global, row: &Row) -> Result<String, Fail> {
    let mut wanted = String::new(alloc);
    for done in &DONE {
        wanted.push_str(done)?;
    }
    for request in row.sent {
        push(alloc, &mut wanted, "sent ", request)?;
        wanted.push('\n')?;
    }
    push(alloc, &mut wanted, "answer ", row.answer)?;
    wanted.push_str("\nended Closed\n")?;
    wanted.push_str(row.usage)?;
    Ok(wanted)
}

#[test]
fn an_exchange_that_comes_to_nothing_is_answered(rt: HostRuntime) -> Result<(), Fail> {
    let alloc = rt.alloc();
    for (number, row) in ROWS.iter().enumerate() {
        let script = script(alloc, row.outcomes)?;
        let wanted = wanted(alloc, row)?;
        let (status, said) = play(&rt, alloc, script.as_str())?;
        assert_eq!(rt; said.bytes(), wanted.as_bytes(), "row {number}");
        assert_eq!(rt; status, 0);
    }
    Ok(())
}
