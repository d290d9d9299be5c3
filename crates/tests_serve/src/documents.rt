// Connections to an API that is a document, to the byte.
use crate::sessions::{conn, is_served_so, joined, serve_document};
use gate_walk::Ended;
use std::alloc::Global;
use std::sync::Wait;
use std::test::Fail;

const SHOP: &str = r#"{"version":1,
    "models":{"order":{"type":"object","required":["qty"]}},
    "validators":{"all":{"body":true,"parameters":true}},
    "resources":{"/orders":{"POST":{
        "validator":"all",
        "parameters":{"method.request.querystring.shop":true},
        "models":{"application/json":"order"},
        "integration":{"type":"MOCK"}
    }}},
    "gatewayResponses":{
        "REQUEST_TOO_LARGE":{"status":400,"template":"$context.apiId/$context.stage"},
        "BAD_REQUEST_BODY":{"headers":{"x-at":"context.resourcePath","x-verb":"context.httpMethod"}}
    }}"#;

/// What comes on a connection, and what is written on it.
const ROWS: [(&[&[u8]], &[&[u8]]); 5] = [
    (
        &[b"POST /hello/v1/nowhere HTTP/1.1\r\nhost: a\r\n\r\n"],
        &[
            b"HTTP/1.1 403 Forbidden\r\ncontent-type: application/json\r\nx-gateway-cause: MISSING_AUTHENTICATION_TOKEN\r\ncontent-length: 42\r\n\r\n{\"message\":\"Missing Authentication Token\"}",
        ],
    ),
    (
        &[b"POST /hello/v1/orders HTTP/1.1\r\nhost: a\r\ncontent-length: 1\r\n\r\n{"],
        &[
            b"HTTP/1.1 400 Bad Request\r\ncontent-type: application/json\r\nx-gateway-cause: BAD_REQUEST_PARAMETERS\r\ncontent-length: 57\r\n\r\n{\"message\":\"Missing required request parameters: [shop]\"}",
        ],
    ),
    (
        &[b"POST /hello/v1/orders?shop=1 HTTP/1.1\r\nhost: a\r\ncontent-length: 1\r\n\r\n{"],
        &[
            b"HTTP/1.1 400 Bad Request\r\ncontent-type: application/json\r\nx-at: /orders\r\nx-gateway-cause: BAD_REQUEST_BODY\r\ncontent-length: 34\r\n\r\n{\"message\":\"Invalid request body\"}",
        ],
    ),
    (
        &[
            b"POST /hello/v1/orders?shop=1 HTTP/1.1\r\nhost: a\r\ncontent-length: 9\r\n\r\n{\"qty\":1}",
            b"POST /hello/v1/orders?shop=1 HTTP/1.1\r\nhost: a\r\ncontent-length: 9\r\n\r\n{\"qty\":1}",
        ],
        &[
            b"HTTP/1.1 500 Internal Server Error\r\ncontent-type: application/json\r\nx-gateway-cause: API_CONFIGURATION_ERROR\r\ncontent-length: 35\r\n\r\n{\"message\":\"Internal server error\"}",
            b"HTTP/1.1 500 Internal Server Error\r\ncontent-type: application/json\r\nx-gateway-cause: API_CONFIGURATION_ERROR\r\ncontent-length: 35\r\n\r\n{\"message\":\"Internal server error\"}",
        ],
    ),
    (
        &[b"POST /hello/v1/orders HTTP/1.1\r\nhost: a\r\ncontent-length: 10485761\r\n\r\n"],
        &[
            b"HTTP/1.1 400 Bad Request\r\ncontent-type: application/json\r\nx-gateway-cause: REQUEST_TOO_LARGE\r\nconnection: close\r\ncontent-length: 8\r\n\r\nhello/v1",
        ],
    ),
];

// Whether a connection is served as its row says, each message by an Enter and a Leave.
fn is_served<R: Wait>(
    rt: &R,
    alloc: Global,
    comes: &[&[u8]],
    written: &[&[u8]],
) -> Result<bool, Fail> {
    let bytes = joined(alloc, comes)?;
    let mut conn = conn(alloc, &bytes, 4096, &[], &[])?;
    let served = serve_document(rt, alloc, SHOP, &mut conn)?;
    let mut entries = String::new(alloc);
    for _ in comes {
        entries.push_str("enter leave ")?;
    }
    is_served_so(
        alloc,
        &served,
        &conn,
        written,
        Ended::Closed,
        entries.as_str(),
    )
}

#[test]
fn a_document_answers_by_its_routes_checks_and_rules(rt: HostRuntime) -> Result<(), Fail> {
    let alloc = rt.alloc();
    for (number, (comes, written)) in ROWS.iter().enumerate() {
        assert!(rt; is_served(&rt, alloc, comes, written)?, "row {number}");
    }
    Ok(())
}
