// A request that is asked for values.
ghost use Rattle.std.specs.Prelude.{◌≡◌, ◌<◌, IfOk};
ghost use Rattle.std.specs.Option.{option_map};
ghost use Rattle.gateway_vars.specs.Held.{asked};
ghost use Rattle.integration_flow.specs.Preparing.{prepared as prepared_of};
ghost use Rattle.integration_flow.specs.Stopping.{Flows};
ghost use Rattle.integration_request.specs.Values.{parameter_of, value_of};

use api_model::{Integration, Origin, ParameterPlace};
use call_facts::{CallFacts, Request, Target, first_value, header_value};
use gateway_vars::RequestRoots;
use gw_base::{Memory, Text};
use integration_flow::{FlowStop, ReadBody, Written, context_text, prepared, variable_text};
use resource_tree::Found;
use std::alloc::Global;
use std::marker::Model;

/// A request with the roots of its template, to which nothing was written, and with the document that its body is.
#[derive(Drop)]
pub struct Asking<'a> {
    roots: RequestRoots<'a>,
    body: ReadBody<'a>,
    request: &'a Request,
    target: &'a Target,
    found: &'a Found,
}

impl<'a> Model for Asking<'a> {
    ghost use Rattle.std.specs.Prelude.{◌≡◌, []};
    ghost use Rattle.gateway_vars.specs.Held.{Held, params_of};
    ghost use Rattle.gateway_vars.specs.Meanings.{request_held, request_kept};

    ghost Value = { Held };

    ghost view = { λ a. request_held a.roots };

    ghost invariant = { λ a. (request_kept a.roots ≡ []) × (a.body ≡ a.request.now.body) × ((request_held a.roots).body ≡ a.request.now.body) × ((request_held a.roots).params ≡ params_of a.request.now a.target.now a.found.now) };
}

fn copied(alloc: Global, value: Option<&Text>) -> Result<Option<Text>, Memory>
    ensures { IfOk result (λ made. made ≡ option_map (λ v. v.now) value.entry) }
{
    match value {
        Some(value) => Ok(Some(value.copy(alloc)?)),
        None => Ok(None),
    }
}

impl<'a> Asking<'a> {
    /// Reads the document that the request's body is.
    pub fn new(
        alloc: Global,
        request: &'a Request,
        target: &'a Target,
        found: &'a Found,
        facts: &'a CallFacts,
    ) -> Result<Self, Memory>
        requires { facts.now.at < 4102444800000 }
        ensures { IfOk result (λ a. a ≡ asked request.now target.now found.now facts.now) }
    {
        let roots = RequestRoots::new(alloc, request, target, found, facts)?;
        let body = ReadBody::new(alloc, request.body.as_slice())?;
        Ok(Asking {
            roots,
            body,
            request,
            target,
            found,
        })
    }

    fn parameter(&self, place: ParameterPlace, name: &str) -> Option<&Text>
        ensures { option_map (λ v. v.now) result ≡ parameter_of self.now.params place name.now }
    {
        match place {
            ParameterPlace::Path => first_value(self.found.params.as_slice(), name),
            ParameterPlace::Query => first_value(self.target.query.as_slice(), name),
            ParameterPlace::Header => header_value(self.request.headers.as_slice(), name),
        }
    }

    /// The value of a source, where it has one.
    pub fn value(&self, alloc: Global, origin: &Origin) -> Result<Option<Text>, Memory>
        ensures { IfOk result (λ text. text ≡ value_of self.now origin.now) }
    {
        match origin {
            Origin::Static(text) => Ok(Some(text.copy(alloc)?)),
            Origin::Parameter(place, name) => copied(alloc, self.parameter(*place, name.as_str())),
            Origin::Body(path) => self.body.text_at(alloc, path),
            Origin::Context(name) => context_text(alloc, &self.roots, name.as_str()),
            Origin::StageVariable(name) => variable_text(alloc, &self.roots, name.as_str()),
            Origin::ReplyHeader(_) => Ok(None),
        }
    }

    /// The body that an integration prepares of the request, with what its template writes over.
    pub fn prepare(self, alloc: Global, integration: &Integration) -> Result<Written, FlowStop>
        ensures { Flows (prepared_of integration.now self.entry) result }
    {
        let Asking {
            roots,
            body: _,
            request,
            target: _,
            found: _,
        } = self;
        prepared(alloc, integration, request, roots)
    }
}
