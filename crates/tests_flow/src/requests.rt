// Integrations with a backend, with where they send a request and how long they wait.
use api_model::Api;
use backend_core::WireRequest;
use call_facts::{CallFacts, Request, Target, Vars};
use gw_base::{Bytes, Memory, Seq, Shared, Text};
use integration_request::{Prepared, wire_request};
use resource_tree::Found;
use std::alloc::Global;
use std::test::Fail;

/// The members of an integration, and its host, its port and its milliseconds. The variable `port` of the stage is `09002`.
const SENT: [(&str, &str); 4] = [
    (
        r#""type":"HTTP","method":"POST","uri":"http://127.0.0.1:9002/e","templates":{"application/json":""}"#,
        "127.0.0.1 9002 29000",
    ),
    (
        r#""type":"HTTP","method":"GET","uri":"http://localhost:${stageVariables.port}/x","timeout":50"#,
        "localhost 9002 50",
    ),
    (
        r#""type":"HTTP_PROXY","method":"GET","uri":"http://127.0.0.1:9002/p","timeout":29000"#,
        "127.0.0.1 9002 29000",
    ),
    (
        r#""type":"HTTP_PROXY","method":"POST","uri":"http://localhost:80/p/q""#,
        "localhost 80 29000",
    ),
];

fn text(alloc: Global, from: &str) -> Result<Text, Memory> {
    Ok(Text::of(String::from_str(alloc, from)?))
}

fn facts(alloc: Global) -> Result<CallFacts, Memory> {
    let mut pairs = Seq::new(alloc);
    pairs.push((text(alloc, "port")?, text(alloc, "09002")?))?;
    Ok(CallFacts {
        api: text(alloc, "shop")?,
        stage: text(alloc, "v1")?,
        place: 3,
        at: 1_700_000_000_000,
        deployment: 1,
        canary: false,
        variables: Shared::new(alloc, Vars { pairs })?,
        resource: text(alloc, "/e")?,
        key: None,
        policy: None,
        error: None,
    })
}

fn told(alloc: Global, sent: &WireRequest) -> Result<String, Memory> {
    Ok(format!(in alloc; "{} {} {}", sent.host.as_str(), sent.port, sent.timeout)?)
}

fn sent(alloc: Global, api: &Api) -> Result<String, Memory> {
    let request = Request {
        method: text(alloc, "POST")?,
        target: text(alloc, "/shop/v1/e")?,
        http10: false,
        headers: Seq::new(alloc),
        body: Bytes::of(Vec::new(alloc)),
    };
    let target = Target::read(alloc, "/shop/v1/e")?;
    let found = Found {
        resource: 0,
        params: Seq::new(alloc),
    };
    let facts = facts(alloc)?;
    if facts.at >= 4_102_444_800_000 || api.methods() == 0 {
        return Err(Memory);
    }
    match wire_request(alloc, api, 0, &request, &target, &found, &facts) {
        Ok(Prepared::Wire(sent)) => told(alloc, &sent),
        Ok(Prepared::Proxy(sent)) => told(alloc, &sent),
        _ => Ok(String::from_str(alloc, "nothing")?),
    }
}

#[test]
fn a_request_goes_there_and_its_reply_is_waited_for(rt: HostRuntime) -> Result<(), Fail> {
    let alloc = rt.alloc();
    for (integration, wanted) in &SENT {
        let source = format!(in alloc;
            "{{\"version\":1,\"resources\":{{\"/e\":{{\"POST\":{{\"integration\":{{{integration}}}}}}}}}}}"
        )?;
        let Ok(api) = Api::read(alloc, source.as_bytes()) else {
            return Err(Fail::from("the definition is refused"));
        };
        let told = sent(alloc, &api)?;
        assert_eq!(rt; told.as_str(), *wanted, "{integration}");
    }
    Ok(())
}
