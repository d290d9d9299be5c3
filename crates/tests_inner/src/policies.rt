// Replies of authorizers with the bytes at which they are no policies, and which statement of a policy decides: the answer to a
// call tells neither.
use policy_core::{AuthReply, Decision, LIMIT, Policy, PolicyFault, decide};
use std::alloc::Global;
use std::test::Fail;

fn read(alloc: Global, reply: &str) -> Result<String, Fail> {
    match AuthReply::read(alloc, reply.as_bytes()) {
        Ok(_) => Ok(String::from_str(alloc, "read")?),
        Err(fault) => Ok(format!(in alloc; "{fault}")?),
    }
}

const REPLIES: [(&str, &str); 19] = [
    ("{}", "Malformed(0)"),
    (" [1]", "Malformed(1)"),
    ("{\"a\":}", "Malformed(5)"),
    ("{\"a\":1,\"a\":1}", "Malformed(7)"),
    (r#"{"principalId":7}"#, "Malformed(15)"),
    (r#"{"principalId":"p"}"#, "Malformed(0)"),
    (r#"{"policyDocument":{}}"#, "Malformed(18)"),
    (r#"{"policyDocument":{},"principalId":7}"#, "Malformed(18)"),
    (r#"{"policyDocument":[]}"#, "Malformed(18)"),
    (r#"{"policyDocument":{"Statement":7}}"#, "Malformed(31)"),
    (r#"{"policyDocument":{"Statement":[7]}}"#, "Malformed(32)"),
    (r#"{"policyDocument":{"Statement":{}}}"#, "Malformed(31)"),
    (
        r#"{"policyDocument":{"Statement":{"Effect":"allow"}}}"#,
        "Malformed(41)",
    ),
    (
        r#"{"policyDocument":{"Statement":{"Effect":"Allow","Action":["a",7]}}}"#,
        "Malformed(63)",
    ),
    (
        r#"{"policyDocument":{"Statement":{"Effect":"Allow","Action":"a","Resource":"b","Condition":{}}}}"#,
        "Malformed(31)",
    ),
    (
        r#"{"policyDocument":{"Statement":{"Effect":"Allow","NotAction":"a","Action":7,"Resource":"b"}}}"#,
        "Malformed(31)",
    ),
    (
        r#"{"policyDocument":{"Statement":{"Effect":"Allow","Action":"a","NotResource":"b"}}}"#,
        "Malformed(31)",
    ),
    (
        r#"{"context":{"a":null},"principalId":"p","policyDocument":{"Statement":[]}}"#,
        "Malformed(16)",
    ),
    (
        r#"{"context":7,"principalId":"p","policyDocument":{"Statement":[]}}"#,
        "Malformed(11)",
    ),
];

#[test]
fn a_fault_has_its_place(rt: HostRuntime) -> Result<(), Fail> {
    for (reply, want) in &REPLIES {
        let got = read(rt.alloc(), reply)?;
        assert_eq!(rt; got.as_str(), *want, "at {reply}");
    }
    Ok(())
}

// So many spaces, and the rest behind them.
fn spaced(alloc: Global, spaces: usize, rest: &str) -> Result<String, Fail> {
    let mut long = String::new(alloc);
    for _ in 0..spaces {
        long.push(' ')?;
    }
    long.push_str(rest)?;
    Ok(long)
}

fn fault_of(alloc: Global, reply: &str) -> Option<PolicyFault> {
    AuthReply::read(alloc, reply.as_bytes()).err()
}

#[test]
fn a_reply_has_65536_bytes_at_most(rt: HostRuntime) -> Result<(), Fail> {
    for rest in ["", "}"] {
        let long = spaced(rt.alloc(), LIMIT, rest)?;
        let fault = fault_of(rt.alloc(), long.as_str());
        assert!(rt; fault == Some(PolicyFault::Malformed(65_536)));
    }
    Ok(())
}

const ALLOW_THEN_DENY: &str =
    r#"{"principalId":"p","policyDocument":{"Statement":[{"Effect":"Allow","Action":"*","Resource":"*"},{"Effect":"Deny","Action":"execute-api:Invoke","Resource":"*/POST/*"}]}}"#;

const NOTHING: &str = r#"{"principalId":"p","policyDocument":{"Statement":[]}}"#;

// A reply, what is asked for, and what the reply's policy decides.
const DECIDED: [(&str, &str, Decision); 3] = [
    (
        ALLOW_THEN_DENY,
        "arn:aws:execute-api:local:000000000000:a/s/POST/",
        Decision::Deny(1),
    ),
    (
        ALLOW_THEN_DENY,
        "arn:aws:execute-api:local:000000000000:a/s/GET/",
        Decision::Allow(0),
    ),
    (NOTHING, "a", Decision::NoAllow),
];

fn decided(alloc: Global, reply: &str, arn: &str) -> Result<Decision, Fail> {
    let policy = AuthReply::read(alloc, reply.as_bytes())?;
    Ok(decide(&policy, arn))
}

#[test]
fn policies_decide(rt: HostRuntime) -> Result<(), Fail> {
    for (reply, arn, decision) in &DECIDED {
        let got = decided(rt.alloc(), reply, arn)?;
        assert_eq!(rt; got, *decision, "at {arn}");
    }
    Ok(())
}

// What one statement decides that allows this action on this resource.
fn allowed(alloc: Global, action: &str, resource: &str, arn: &str) -> Result<bool, Fail> {
    let reply = format!(in alloc;
        "{{\"principalId\":\"p\",\"policyDocument\":{{\"Statement\":{{\"Effect\":\"Allow\",\"Action\":\"{action}\",\"Resource\":\"{resource}\"}}}}}}"
    )?;
    Ok(decided(alloc, reply.as_str(), arn)? == Decision::Allow(0))
}

// No target of a request holds a line feed.
#[test]
fn a_star_stands_for_a_line_feed_too(rt: HostRuntime) -> Result<(), Fail> {
    assert!(rt; allowed(rt.alloc(), "*", "**a*", "a/b\n")?);
    Ok(())
}

fn crosses_threads<T: Send + Sync>(value: T) -> T {
    value
}

fn policy(alloc: Global, reply: &str) -> Option<Policy> {
    AuthReply::read(alloc, reply.as_bytes()).ok()
}

#[test]
fn a_policy_crosses_threads(rt: HostRuntime) -> Result<(), Fail> {
    let policy = crosses_threads(policy(rt.alloc(), NOTHING));
    assert!(rt; policy.is_some_and(|policy| policy.principal.as_str() == "p"));
    Ok(())
}
