// The methods of `$util`.
ghost use Rattle.std.specs.Prelude.{◌≡◌, IfOk, map};
ghost use Rattle.vtl_eval.specs.Views.{stepped_of};
ghost use Rattle.gateway_vars.specs.Util.{coding_named, util_of_text, util_call as util_call_of, util_step as util_step_of, util_value as util_value_of};

use crate::codings::{base64_decode, base64_encode, url_decode, url_encode};
use crate::documents::parse_json;
use crate::escapes::escape_java_script;
use crate::steps::{only_step, only_text};
use crate::texts::made_value;
use gw_base::Memory;
use std::alloc::Global;
use vtl_eval::Step;
use vtl_values::Value;

/// The value of a path below `$util`.
#[tactic(auto, unfolding(crate::specs::Util::util_value))]
pub fn util_value(alloc: Global, path: &[Step]) -> Result<Value, Memory>
    ensures { IfOk result (λ v. v ≡ util_value_of (map stepped_of path.now)) }
{
    match only_step(path) {
        Some(step) => util_step(alloc, step),
        None => Ok(Value::null()),
    }
}

fn util_step(alloc: Global, step: &Step) -> Result<Value, Memory>
    ensures { IfOk result (λ v. v ≡ util_step_of (stepped_of step.now)) }
{
    match step {
        Step::Name(_) => Ok(Value::null()),
        Step::Index(_) => Ok(Value::null()),
        Step::Call(method, arguments) => util_call(alloc, method.as_str(), arguments.as_slice()),
    }
}

fn util_call(alloc: Global, method: &str, arguments: &[Value]) -> Result<Value, Memory>
    ensures { IfOk result (λ v. v ≡ util_call_of method.now arguments.now) }
{
    match only_text(arguments) {
        Some(text) => util_of_text(alloc, method, text.as_str()),
        None => Ok(Value::null()),
    }
}

#[tactic(auto, unfolding(crate::specs::Util::util_of_text))]
fn util_of_text(alloc: Global, method: &str, text: &str) -> Result<Value, Memory>
    ensures { IfOk result (λ v. v ≡ util_of_text method.now text.now) }
{
    if method == "escapeJavaScript" {
        made_value(escape_java_script(alloc, text)?)
    } else if method == "parseJson" {
        parse_json(alloc, text)
    } else {
        coding(alloc, method, text)
    }
}

fn coding(alloc: Global, method: &str, text: &str) -> Result<Value, Memory>
    ensures { IfOk result (λ v. v ≡ coding_named method.now text.now) }
{
    if method == "urlEncode" {
        made_value(url_encode(alloc, text)?)
    } else if method == "urlDecode" {
        made_value(url_decode(alloc, text)?)
    } else if method == "base64Encode" {
        made_value(base64_encode(alloc, text)?)
    } else if method == "base64Decode" {
        match base64_decode(alloc, text)? {
            Some(decoded) => made_value(decoded),
            None => Ok(Value::null()),
        }
    } else {
        Ok(Value::null())
    }
}
