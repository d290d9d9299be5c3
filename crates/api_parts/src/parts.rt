// What a definition states of its methods.
use crate::uri::Uri;
use gw_base::{Seq, Shared, Text};
use jsonpath_core::Path;
use pattern_core::Pattern;
use status_table::StatusTable;
use vtl_reader::Template;

/// An authorizer of tokens.
#[derive(Drop)]
pub struct Authorizer {
    pub name: Text,
    /// The name of the header that has the token.
    pub header: Text,
    /// What the whole token must match.
    pub pattern: Option<Text>,
    /// Where it is asked: no placeholders and no variables stand there.
    pub uri: Text,
    /// How long a policy is remembered, in seconds: 0 to 3,600, and 300 by default.
    pub ttl: u32,
    /// How long it is waited for, in milliseconds: 50 to 29,000, and 29,000 by default.
    pub timeout: u32,
}

/// An authorizer, and its pattern `P` compiled as `^(?:P)$`: a search finds just the whole tokens that `P` matches.
#[derive(Drop)]
pub struct TokenAuthorizer {
    pub authorizer: Authorizer,
    pub whole: Option<Pattern>,
}

/// What of a request is checked.
#[derive(Clone, Copy, Debug, PartialEq, Eq)]
pub struct Validator {
    pub body: bool,
    pub parameters: bool,
}

/// Where a parameter stands in a message.
#[derive(Clone, Copy, Debug, PartialEq, Eq)]
pub enum ParameterPlace {
    Path,
    Query,
    Header,
}

/// A parameter that a method names.
#[derive(Drop)]
pub struct Parameter {
    pub place: ParameterPlace,
    pub name: Text,
    pub required: bool,
}

/// What a method is answered by.
#[derive(Clone, Copy, Debug, PartialEq, Eq)]
pub enum IntegrationKind {
    /// No backend: the prepared body tells the status.
    Mock,
    /// A backend, between mapping templates.
    Http,
    /// A backend, whose replies are passed on.
    HttpProxy,
}

/// What happens to a body for whose media type no template stands.
#[derive(Clone, Copy, Debug, PartialEq, Eq)]
pub enum Passthrough {
    /// It is passed on.
    WhenNoMatch,
    /// It is passed on where there is no template at all.
    WhenNoTemplates,
    /// It is refused.
    Never,
}

/// Where a mapped value comes from.
#[derive(Drop)]
pub enum Origin {
    /// `method.request.path.N`, `method.request.querystring.N`, `method.request.header.N`.
    Parameter(ParameterPlace, Text),
    /// `method.request.body.PATH`, `integration.response.body.PATH`: the path behind `$.`.
    Body(Path),
    /// `integration.response.header.N`.
    ReplyHeader(Text),
    /// `context.X`, by the dotted name X.
    Context(Text),
    /// `stageVariables.N`.
    StageVariable(Text),
    /// `'text'`, without its quotes.
    Static(Text),
}

/// A value that is written into a message. In a response its place is the header.
#[derive(Drop)]
pub struct Mapping {
    pub place: ParameterPlace,
    pub name: Text,
    pub origin: Origin,
}

/// What is answered at some statuses of a backend; without a pattern, at all others.
#[derive(Drop)]
pub struct ResponseRule {
    /// Rules with the same pattern share its table.
    pub pattern: Option<Shared<StatusTable>>,
    /// 200 to 599.
    pub status: u16,
    pub parameters: Seq<Mapping>,
    /// Each media type with its template.
    pub templates: Seq<(Text, Template)>,
}

/// How a method is answered. Of [`IntegrationKind::Mock`] `method` and `uri` are empty, and there is no `backend`.
#[derive(Drop)]
pub struct Integration {
    pub kind: IntegrationKind,
    pub method: Text,
    pub uri: Text,
    /// The pieces of `uri`.
    pub backend: Option<Uri>,
    pub passthrough: Passthrough,
    pub parameters: Seq<Mapping>,
    /// Each media type with its template.
    pub templates: Seq<(Text, Template)>,
    pub responses: Seq<ResponseRule>,
    /// In milliseconds: 50 to 29,000, and 29,000 by default.
    pub timeout: u32,
}

/// A method of a resource. What it names by number is numbered in the order of the document, from 0.
#[derive(Drop)]
pub struct Method {
    /// The verb, or `ANY`.
    pub verb: Text,
    pub api_key_required: bool,
    pub authorizer: Option<u32>,
    pub validator: Option<u32>,
    pub parameters: Seq<Parameter>,
    /// Each media type, or `$default`, with a model.
    pub models: Seq<(Text, u32)>,
    pub integration: Integration,
}

/// A resource: its path, and its verbs, each with the number of its method.
#[derive(Drop)]
pub struct Resource {
    pub path: Text,
    pub verbs: Seq<(Text, u32)>,
}

/// What the gateway's own answers of a kind are.
#[derive(Drop)]
pub struct GatewayRule {
    /// 400 to 599.
    pub status: Option<u16>,
    pub headers: Seq<(Text, Origin)>,
    pub template: Option<Template>,
}
