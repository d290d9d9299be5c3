// Templates of the gateway's own answers that no document may have, with calls and directives, and messages with quotes.
use call_facts::{CallFacts, Kind, Vars};
use gateway_vars::FailureRoots;
use gw_base::{Memory, Name, Seq, Shared, Text};
use policy_core::Policy;
use std::alloc::Global;
use std::test::Fail;
use vtl_eval::{Roots, render};
use vtl_reader::Template;

fn text(alloc: Global, s: &str) -> Result<Text, Memory> {
    Ok(Text::of(String::from_str(alloc, s)?))
}

fn pairs(alloc: Global, rows: &[(&str, &str)]) -> Result<Seq<(Text, Text)>, Memory> {
    let mut made = Seq::new(alloc);
    for row in rows {
        made.push((text(alloc, row.0)?, text(alloc, row.1)?))?;
    }
    Ok(made)
}

fn facts(alloc: Global) -> Result<CallFacts, Memory> {
    Ok(CallFacts {
        api: text(alloc, "t")?,
        stage: text(alloc, "v1")?,
        place: 3,
        at: 1_700_000_000_000,
        deployment: 12,
        canary: false,
        variables: Shared::new(
            alloc,
            Vars {
                pairs: pairs(alloc, &[("env", "w"), ("env", "x")])?,
            },
        )?,
        resource: text(alloc, "/p/{path}")?,
        key: None,
        policy: None,
        error: None,
    })
}

// The text of a template over these roots.
fn printed<R: Roots>(alloc: Global, template: &str, roots: &mut R) -> Result<Text, Memory> {
    let Ok(template) = Template::read(alloc, template) else {
        return Err(Memory);
    };
    match render(alloc, &template, roots, 1_000_000) {
        Ok(rendered) => Ok(rendered.text),
        Err(_) => Err(Memory),
    }
}

fn policy(alloc: Global) -> Result<Policy, Memory> {
    Ok(Policy {
        principal: text(alloc, "u7")?,
        statements: Seq::new(alloc),
        context: pairs(alloc, &[("team", "red"), ("principalId", "no")])?,
    })
}

// What is known of a call with a key, a policy and a refusal.
fn refused_facts(alloc: Global) -> Result<CallFacts, Memory> {
    let policy = Shared::new(alloc, policy(alloc)?)?;
    let error = text(alloc, "Too \"Many\"\n\u{1}/é")?;
    let mut facts = facts(alloc)?;
    facts.key = Some(Name::of("k1"));
    facts.policy = Some(policy);
    facts.error = Some((Kind::Throttled, error));
    Ok(facts)
}

// The roots of a gateway response to a call whose moment is in range.
fn failed<'a>(message: &'a str, facts: &'a CallFacts) -> Result<FailureRoots<'a>, Memory> {
    if facts.at >= 4_102_444_800_000 {
        return Err(Memory);
    }
    Ok(FailureRoots::new(Kind::QuotaExceeded, message, facts))
}

fn failed_text(alloc: Global, facts: &CallFacts, template: &str) -> Result<Text, Memory> {
    let mut roots = failed("Limit \"Exceeded\"", facts)?;
    printed(alloc, template, &mut roots)
}

// What a template of a gateway response prints; its call has a key, a policy, and another refusal in its facts.
fn told_of_refused(alloc: Global, template: &str) -> Result<Text, Memory> {
    let facts = refused_facts(alloc)?;
    failed_text(alloc, &facts, template)
}

// Templates of gateway responses, and what they print.
const TOLD: [(&str, &str); 7] = [
    (
        "$context.error.responseType $context.error.message $context.error.messageString$!context.error.none",
        "QUOTA_EXCEEDED Limit \"Exceeded\" \"Limit \\\"Exceeded\\\"\"",
    ),
    (
        "$!input.body$!input.json('$.a')$!input.params('x')$!input.params()|",
        "|",
    ),
    (
        "$!context.httpMethod$!context.path$!context.identity.userAgent|",
        "|",
    ),
    (
        "$context.apiId $context.stage $context.resourcePath $context.requestId $context.deploymentId",
        "t v1 /p/{path} 0000000000000003 12",
    ),
    (
        "$context.identity.sourceIp $context.identity.apiKeyId $context.authorizer.principalId",
        "127.0.0.1 k1 u7",
    ),
    ("$stageVariables.env $util.urlEncode('a b')", "x a+b"),
    (
        "#set($context.responseOverride.status = 418)#set($context.error.message = 'no')$context.error.message",
        "Limit \"Exceeded\"",
    ),
];

#[test]
fn a_gateway_response_sees_no_request_and_tells_its_refusal(rt: HostRuntime) -> Result<(), Fail> {
    for (template, prints) in &TOLD {
        let made = told_of_refused(rt.alloc(), template)?;
        assert_eq!(rt; made.as_str(), *prints, "at {template}");
    }
    Ok(())
}
