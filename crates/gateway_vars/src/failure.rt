// The roots of a gateway response.
ghost use Rattle.std.specs.Prelude.{◌≡◌, ◌<◌};

use crate::context::{context_value, variable_value};
use crate::occasion::Occasion;
use crate::util::util_value;
use call_facts::{CallFacts, Kind};
use gw_base::{Memory, Text};
use std::alloc::Global;
use std::marker::Model;
use vtl_eval::{Root, Roots, Step};
use vtl_values::Value;

/// The roots of a gateway response's template. No request is seen there, and nothing may be written.
#[derive(Drop)]
pub struct FailureRoots<'a> {
    kind: Kind,
    message: &'a str,
    facts: &'a CallFacts,
}

impl<'a> Model for FailureRoots<'a> {
    ghost use Rattle.std.specs.Prelude.{◌<◌};
    ghost use Rattle.gateway_vars.specs.Held.{Failed};

    ghost Value = { Failed };

    ghost view = { λ r. record { kind = r.kind; message = r.message.now; facts = r.facts.now } };

    ghost invariant = { λ r. r.facts.now.at < 4102444800000 };
}

impl<'a> FailureRoots<'a> {
    /// The roots of a gateway response of this kind and with this message: those of `$context.error`, whatever the facts hold.
    pub fn new(kind: Kind, message: &'a str, facts: &'a CallFacts) -> Self
        requires { facts.now.at < 4102444800000 }
        ensures { result ≡ record { kind = kind; message = message.now; facts = facts.now } }
    {
        FailureRoots {
            kind,
            message,
            facts,
        }
    }

    /// The kind of the response.
    pub fn kind(&self) -> Kind
        ensures { result ≡ self.now.kind }
    {
        self.kind
    }

    /// Its message.
    pub fn message(&self) -> &'a str
        ensures { result.now ≡ self.now.message }
    {
        self.message
    }
}

impl<'a> Roots for FailureRoots<'a> {
    ghost use Rattle.std.specs.Prelude.{[]};
    ghost use Rattle.gateway_vars.specs.Meanings.{failure_meanings};

    ghost meanings = { λ r. failure_meanings r };

    ghost kept = { λ r. [] };

    fn get(&self, alloc: Global, root: Root, path: &[Step]) -> Result<Value, Memory> {
        match root {
            Root::Input => Ok(Value::null()),
            Root::Context => {
                let occasion = Occasion::Failure(self.kind, self.message);
                context_value(alloc, occasion, self.facts, path)
            }
            Root::Util => util_value(alloc, path),
            Root::StageVariables => variable_value(alloc, self.facts, path),
        }
    }

    fn write(&mut self, _alloc: Global, _path: &[Text], _value: &Value) -> Result<bool, Memory> {
        Ok(false)
    }
}
