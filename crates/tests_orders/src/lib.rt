//! The API of orders and one order of it, to the byte: what crates of tests play, serve and break.
//!
//! The API has one method. A call of it is let in by an authorizer and by an API key, is checked by a validator and a model, goes on
//! as a template has it, and is answered by a rule:
//!
//! ```text
//! the client           the gateway                            the authorizer, and then the backend
//! ORDER           ->   asks whether the token lets it in  ->  ASKED
//!                                                         <-  ALLOWS
//!                      admits it by its key, and checks it
//!                      sends it on                        ->  SENT
//!                                                         <-  TAKEN
//! ANSWER          <-
//! ```
//!
//! | Constant | Stands for |
//! |---|---|
//! | `COMMANDS`, `DONE` | the records of a script that put the API and all that a call needs, and what they print |
//! | `ORDER` | the bytes of a call, in parts that stand one behind another |
//! | `ASKED`, `ALLOWS` | what the authorizer is sent, and its reply |
//! | `SENT`, `TAKEN` | what the backend is sent, and its reply |
//! | `ANSWER` | what the client is answered |
//! | `USAGE`, `USED_ONCE`, `UNUSED` | the record that asks for the use of the key, and what it prints behind one admitted call, and behind none |
//!
//! Nothing here is a test.
#![tactic(auto)]

/// The API `shop`, its stage `prod`, the key `k1` and the plan `gold`, which the key joined.
pub const COMMANDS: [&'static str; 6] = [
    r##"api 0 shop {"version":1,%0A"models":{"Order":{"type":"object","required":["sku","qty","price"],"properties":{"sku":{"type":"string","pattern":"^[A-Z]{2}-[0-9]+$"},"qty":{"type":"integer","minimum":1},"price":{"type":"number","minimum":0},"note":{"type":"string","maxLength":2000}}}},%0A"validators":{"all":{"body":true,"parameters":true}},%0A"authorizers":{"tok":{"header":"authorization","pattern":"Bearer%20[a-z0-9]+","uri":"http://127.0.0.1:9001/auth","ttl":300}},%0A"resources":{"/orders":{"POST":{"apiKeyRequired":true,"authorizer":"tok","validator":"all","parameters":{"method.request.querystring.shop":true},"models":{"application/json":"Order"},%0A"integration":{"type":"HTTP","method":"PUT","uri":"http://127.0.0.1:9002/${stageVariables.env}/orders","parameters":{"integration.request.header.x-shop":"method.request.querystring.shop"},%0A"templates":{"application/json":"#set($in%20=%20$input.path('$'))\n{\"item\":\"$in.sku\",\"qty\":$in.qty,\"price\":$input.json('$.price'),\"by\":\"$context.authorizer.principalId\"}"},%0A"responses":[{"pattern":"2\\d\\d","status":201,"parameters":{"method.response.header.location":"integration.response.header.location"},"templates":{"application/json":"{\"id\":$input.json('$.id')}"}},{"status":502}]}}}}}"##,
    "deploy 0 shop",
    "stage 0 shop prod 1 env=live",
    "key 0 k1 0123456789abcdef0123 on",
    "plan 0 gold 10:20 1000:0:MONTH shop/prod",
    "join 0 gold k1",
];

/// What each of them prints.
pub const DONE: [&'static str; 6] = [
    "done\n",
    "deployed 1\n",
    "done\n",
    "done\n",
    "done\n",
    "done\n",
];

/// A call of 2,165 bytes: a head of 218, and a body of 1,947, of which 1,900 are the letters of a note.
pub const ORDER: [&'static [u8]; 4] = [
    b"POST /shop/prod/orders?shop=7 HTTP/1.1\r\nhost: localhost:8080\r\nuser-agent: curl/8.5.0\r\naccept: */*\r\ncontent-type: application/json\r\nauthorization: Bearer abc123\r\nx-api-key: 0123456789abcdef0123\r\ncontent-length: 1947\r\n\r\n",
    b"{\"sku\":\"AB-12\",\"qty\":3,\"price\":12.90,\"note\":\"",
    &[b'n'; 1900],
    b"\"}",
];

pub const ASKED: &'static [u8] =
    b"POST /auth HTTP/1.1\r\nhost: 127.0.0.1:9001\r\ncontent-type: application/json\r\nconnection: close\r\ncontent-length: 128\r\n\r\n{\"type\":\"TOKEN\",\"authorizationToken\":\"Bearer abc123\",\"methodArn\":\"arn:aws:execute-api:local:000000000000:shop/prod/POST/orders\"}";

pub const ALLOWS: &'static [u8] =
    b"HTTP/1.1 200 OK\r\ncontent-length: 140\r\n\r\n{\"principalId\":\"u7\",\"policyDocument\":{\"Version\":\"2012-10-17\",\"Statement\":[{\"Effect\":\"Allow\",\"Action\":\"execute-api:Invoke\",\"Resource\":\"*\"}]}}";

pub const SENT: &'static [u8] =
    b"PUT /live/orders HTTP/1.1\r\nhost: 127.0.0.1:9002\r\nx-shop: 7\r\ncontent-type: application/json\r\nconnection: close\r\ncontent-length: 48\r\n\r\n{\"item\":\"AB-12\",\"qty\":3,\"price\":12.90,\"by\":\"u7\"}";

pub const TAKEN: &'static [u8] =
    b"HTTP/1.1 201 Created\r\nlocation: /orders/55\r\ncontent-type: application/json\r\ncontent-length: 25\r\n\r\n{\"id\":55,\"state\":\"taken\"}";

pub const ANSWER: &'static [u8] =
    b"HTTP/1.1 201 Created\r\ncontent-type: application/json\r\nlocation: /orders/55\r\ncontent-length: 9\r\n\r\n{\"id\":55}";

pub const USAGE: &str = "usage 0 gold k1";

pub const USED_ONCE: &str = "usage period=MONTH:0 allowance=1000 used=1 remaining=999\n";

pub const UNUSED: &str = "usage period=MONTH:0 allowance=1000 used=0 remaining=1000\n";
