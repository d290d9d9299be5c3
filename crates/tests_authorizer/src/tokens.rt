// The tokens of requests that no connection carries.
use api_model::Api;
use call_facts::Request;
use gw_base::{Bytes, Memory, Seq, Text};
use method_checks::{Token, token};
use std::alloc::Global;
use std::test::Fail;

/// The value of the header, and the token.
type Asked = (&'static str, &'static str);

const METHOD: &str =
    r#"{"version":1,"authorizers":{"any":{"header":"x-token","pattern":"[a-z ]+","uri":"http://localhost:1/"}},"resources":{"/":{"GET":{"authorizer":"any","integration":{"type":"MOCK"}}}}}"#;

// A connection's values have no blanks around them and no line feed.
const ASKED: [Asked; 2] = [(" ", "taken  "), ("abc\n", "bad")];

fn text(alloc: Global, from: &str) -> Result<Text, Memory> {
    Ok(Text::of(String::from_str(alloc, from)?))
}

fn request(alloc: Global, value: &str) -> Result<Request, Memory> {
    let mut headers = Seq::new(alloc);
    headers.push((text(alloc, "x-token")?, text(alloc, value)?))?;
    Ok(Request {
        method: text(alloc, "GET")?,
        target: text(alloc, "/x/s")?,
        http10: false,
        headers,
        body: Bytes::of(Vec::new(alloc)),
    })
}

fn answer(alloc: Global, api: &Api, request: &Request) -> Result<String, Memory> {
    if api.methods() == 0 {
        return Ok(String::from_str(alloc, "no method")?);
    }
    match token(alloc, api, 0, request)? {
        Token::None => Ok(String::from_str(alloc, "none")?),
        Token::Bad => Ok(String::from_str(alloc, "bad")?),
        Token::Taken(token) => Ok(format!(in alloc; "taken {}", token.as_str())?),
    }
}

#[test]
fn a_token_is_taken_as_it_is(rt: HostRuntime) -> Result<(), Fail> {
    let alloc = rt.alloc();
    let Ok(api) = Api::read(alloc, METHOD.as_bytes()) else {
        return Err(Fail::from("the definition is refused"));
    };
    for (value, wanted) in &ASKED {
        let request = request(alloc, value)?;
        let answer = answer(alloc, &api, &request)?;
        assert_eq!(rt; answer.as_str(), *wanted);
    }
    Ok(())
}
