// What the values below the roots are taken from.
ghost use Rattle.std.specs.Prelude.{◌≡◌, ◌<◌, IfOk, map};
ghost use Rattle.vtl_eval.specs.Views.{stepped_of};
ghost use Rattle.gateway_vars.specs.Held.{root as root_of, params_of};

use crate::context::{context_value, variable_value};
use crate::input::{Params, input_value};
use crate::occasion::Occasion;
use crate::payload::Payload;
use crate::util::util_value;
use call_facts::{CallFacts, Request, Target};
use gw_base::Memory;
use resource_tree::Found;
use std::alloc::Global;
use std::marker::Model;
use vtl_eval::{Root, Step};
use vtl_values::Value;

/// A body with its document, a request with the parts of its target, and the facts of a call.
#[derive(Drop)]
pub struct Sources<'a> {
    body: Payload<'a>,
    request: &'a Request,
    target: &'a Target,
    found: &'a Found,
    facts: &'a CallFacts,
}

impl<'a> Model for Sources<'a> {
    ghost use Rattle.std.specs.Prelude.{◌<◌};
    ghost use Rattle.gateway_vars.specs.Held.{Held};

    ghost Value = { Held };

    ghost view = { λ s. record { body = s.body; params = record { path = s.found.now.params; query = s.target.now.query; header = s.request.now.headers }; request = s.request.now; target = s.target.now; facts = s.facts.now } };

    ghost invariant = { λ s. s.facts.now.at < 4102444800000 };
}

impl<'a> Sources<'a> {
    /// Reads the document that the body is.
    pub fn new(
        alloc: Global,
        body: &'a [u8],
        request: &'a Request,
        target: &'a Target,
        found: &'a Found,
        facts: &'a CallFacts,
    ) -> Result<Self, Memory>
        requires { facts.now.at < 4102444800000 }
        ensures { IfOk result (λ s. s ≡ record { body = body.now; params = params_of request.now target.now found.now; request = request.now; target = target.now; facts = facts.now }) }
    {
        let body = Payload::new(alloc, body)?;
        Ok(Sources {
            body,
            request,
            target,
            found,
            facts,
        })
    }

    /// The value of a path below a root.
    pub fn value(&self, alloc: Global, root: Root, path: &[Step]) -> Result<Value, Memory>
        ensures { IfOk result (λ v. v ≡ root_of self.now root (map stepped_of path.now)) }
    {
        match root {
            Root::Input => {
                let params = Params {
                    path: self.found.params.as_slice(),
                    query: self.target.query.as_slice(),
                    header: self.request.headers.as_slice(),
                };
                input_value(alloc, &self.body, params, path)
            }
            Root::Context => {
                let occasion = Occasion::Call(self.request, self.target);
                context_value(alloc, occasion, self.facts, path)
            },
            Root::Util => util_value(alloc, path),
            Root::StageVariables => variable_value(alloc, self.facts, path),
        }
    }
}
