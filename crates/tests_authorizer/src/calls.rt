// What authorizers are asked where no call of the program asks it, and want of memory.
use api_parts::Authorizer;
use authorizer_call::{AuthorizerFault, arn, authorizer_request, policy_of};
use backend_core::{Outcome, WireRequest};
use call_facts::Target;
use gw_base::{Memory, Text};
use std::alloc::Global;
use std::test::Fail;

/// A call and an authorizer's uri, and the request to the authorizer. No header may hold these tokens.
#[derive(Clone, Copy)]
struct Asked {
    target: &'static str,
    method: &'static str,
    uri: &'static str,
    token: &'static str,
    wanted: &'static str,
}

const ASKED: [Asked; 2] = [
    Asked {
        target: "/a/s/",
        method: "GET",
        uri: "http://localhost:80/",
        token: "a\"b\\c\nd\u{1}é",
        wanted: "POST / HTTP/1.1\r\nhost: localhost:80\r\ncontent-type: application/json\r\nconnection: close\r\ncontent-length: 120\r\n\r\n{\"type\":\"TOKEN\",\"authorizationToken\":\"a\\\"b\\\\c\\nd\\u0001é\",\"methodArn\":\"arn:aws:execute-api:local:000000000000:a/s/GET/\"}",
    },
    Asked {
        target: "/a/s//%6Frders",
        method: "HEAD",
        uri: "http://localhost:00080/x/y",
        token: "\u{8}\t\u{c}\r\u{1f}\u{7f}/'",
        wanted: "POST /x/y HTTP/1.1\r\nhost: localhost:00080\r\ncontent-type: application/json\r\nconnection: close\r\ncontent-length: 129\r\n\r\n{\"type\":\"TOKEN\",\"authorizationToken\":\"\\b\\t\\f\\r\\u001f\u{7f}/'\",\"methodArn\":\"arn:aws:execute-api:local:000000000000:a/s/HEAD//%6Frders\"}",
    },
];

/// Texts that are no uri of an authorizer.
const OPEN: [&str; 4] = [
    "http://127.0.0.1:9001/{auth}",
    "http://127.0.0.1:${stageVariables.port}/auth",
    "http://127.0.0.1:65536/auth",
    "https://127.0.0.1:9001/auth",
];

fn text(alloc: Global, from: &str) -> Result<Text, Memory> {
    Ok(Text::of(String::from_str(alloc, from)?))
}

fn authorizer(alloc: Global, uri: &str) -> Result<Authorizer, Memory> {
    Ok(Authorizer {
        name: text(alloc, "tok")?,
        header: text(alloc, "authorization")?,
        pattern: None,
        uri: text(alloc, uri)?,
        ttl: 300,
        timeout: 1_500,
    })
}

fn request(alloc: Global, asked: &Asked) -> Result<Option<WireRequest>, Memory> {
    let target = Target::read(alloc, asked.target)?;
    let name = arn(alloc, &target, asked.method)?;
    let authorizer = authorizer(alloc, asked.uri)?;
    authorizer_request(alloc, &authorizer, asked.token, name.as_str())
}

#[test]
fn an_authorizer_is_asked_to_the_byte(rt: HostRuntime) -> Result<(), Fail> {
    for asked in &ASKED {
        match request(rt.alloc(), asked)? {
            Some(sent) => {
                assert_eq!(rt; sent.timeout, 1_500);
                assert_eq!(rt; sent.bytes.as_slice(), asked.wanted.as_bytes());
            }
            None => assert_eq!(rt; asked.uri, ""),
        }
    }
    Ok(())
}

#[test]
fn an_open_uri_is_not_asked(rt: HostRuntime) -> Result<(), Fail> {
    for uri in &OPEN {
        let asked = Asked { uri, ..ASKED[0] };
        let sent = request(rt.alloc(), &asked)?;
        assert_eq!(rt; sent.is_none(), true);
    }
    Ok(())
}

#[test]
fn want_of_memory_is_no_failure(rt: HostRuntime) -> Result<(), Fail> {
    match policy_of(rt.alloc(), &Outcome::Memory) {
        Err(AuthorizerFault::Memory) => Ok(()),
        _ => Err(Fail::from("another fault, or a policy")),
    }
}
