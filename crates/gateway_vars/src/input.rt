// The values of `$input`.
ghost use Rattle.std.specs.Prelude.{◌≡◌, ◌++◌, ◌∷◌, [], IfOk, OnOk, map};
ghost use Rattle.std.specs.Option.{option_map};
ghost use Rattle.std.specs.Rc.{rc_str_bytes};
ghost use Rattle.vtl_eval.specs.Views.{stepped_of};
ghost use Rattle.vtl_values.specs.Val.{text as text_val};
ghost use Rattle.gateway_vars.specs.Input.{param as param_of_name, param_of, json_of, path_of, all_params as all_params_of, input_method as input_method_of, input_none as input_none_of, input_one as input_one_of, input_call as input_call_of, input_named as input_named_of, input_step as input_step_of, input_value as input_value_of};
ghost use Rattle.gateway_vars.specs.Params.{params_of};

use crate::pairs::{header_map, named_map};
use crate::payload::Payload;
use crate::steps::{only_argument, only_step};
use crate::texts::{lossy, made_value, text_value};
use call_facts::{first_value, header_value};
use gw_base::{Memory, Text};
use std::alloc::Global;
use std::rc::RcStr;
use vtl_eval::Step;
use vtl_values::{MapMaker, Value};

/// The parameters of a request: of its path, of its query and of its header.
#[derive(Clone, Copy)]
pub struct Params<'a> {
    pub path: &'a [(Text, Text)],
    pub query: &'a [(Text, Text)],
    pub header: &'a [(Text, Text)],
}

// The first value of a parameter: that of the path, else of the query, else of the header.
fn param<'a>(params: Params<'a>, name: &str) -> Option<&'a Text>
    ensures { option_map (λ v. v.now) result ≡ param_of_name (params_of params.entry) name.now }
{
    match first_value(params.path, name) {
        Some(value) => Some(value),
        None => match first_value(params.query, name) {
            Some(value) => Some(value),
            None => header_value(params.header, name),
        },
    }
}

fn put_named(alloc: Global, map: &mut MapMaker, name: &str, value: Value) -> Result<(), Memory>
    ensures { OnOk result (map.new ≡ map.old ++ (text_val name.now, value) ∷ []) }
{
    let name = text_value(alloc, name)?;
    map.put(&name, value)
}

#[tactic(auto, unfolding(crate::specs::Input::all_params))]
fn all_params(alloc: Global, params: Params<'_>) -> Result<Value, Memory>
    ensures { IfOk result (λ v. v ≡ all_params_of (params_of params.entry)) }
{
    let mut map = MapMaker::new(alloc);
    put_named(alloc, &mut map, "path", named_map(alloc, params.path)?)?;
    put_named(
        alloc,
        &mut map,
        "querystring",
        named_map(alloc, params.query)?,
    )?;
    put_named(alloc, &mut map, "header", header_map(alloc, params.header)?)?;
    map.close(alloc)
}

fn json_value(alloc: Global, body: &Payload<'_>, path: Option<&RcStr>) -> Result<Value, Memory>
    ensures { IfOk result (λ v. v ≡ json_of body.now (option_map (λ p. rc_str_bytes p.now) path.entry)) }
{
    match path {
        Some(path) => made_value(body.json(alloc, path.as_str())?),
        None => text_value(alloc, "\"\""),
    }
}

fn path_value(alloc: Global, body: &Payload<'_>, path: Option<&RcStr>) -> Result<Value, Memory>
    ensures { IfOk result (λ v. v ≡ path_of body.now (option_map (λ p. rc_str_bytes p.now) path.entry)) }
{
    match path {
        Some(path) => body.path(alloc, path.as_str()),
        None => Ok(Value::null()),
    }
}

fn param_value(alloc: Global, params: Params<'_>, name: Option<&RcStr>) -> Result<Value, Memory>
    ensures { IfOk result (λ v. v ≡ param_of (params_of params.entry) (option_map (λ x. rc_str_bytes x.now) name.entry)) }
{
    match name {
        Some(name) => match param(params, name.as_str()) {
            Some(value) => text_value(alloc, value.as_str()),
            None => text_value(alloc, ""),
        },
        None => text_value(alloc, ""),
    }
}

fn input_method(
    alloc: Global,
    body: &Payload<'_>,
    params: Params<'_>,
    method: &str,
    argument: Option<&RcStr>,
) -> Result<Value, Memory>
    ensures { IfOk result (λ v. v ≡ input_method_of body.now (params_of params.entry) method.now (option_map (λ x. rc_str_bytes x.now) argument.entry)) }
{
    if method == "json" {
        json_value(alloc, body, argument)
    } else if method == "path" {
        path_value(alloc, body, argument)
    } else if method == "params" {
        param_value(alloc, params, argument)
    } else {
        Ok(Value::null())
    }
}

fn input_none(alloc: Global, params: Params<'_>, method: &str) -> Result<Value, Memory>
    ensures { IfOk result (λ v. v ≡ input_none_of (params_of params.entry) method.now) }
{
    if method == "params" {
        all_params(alloc, params)
    } else {
        Ok(Value::null())
    }
}

fn input_call(
    alloc: Global,
    body: &Payload<'_>,
    params: Params<'_>,
    method: &str,
    arguments: &[Value],
) -> Result<Value, Memory>
    ensures { IfOk result (λ v. v ≡ input_call_of body.now (params_of params.entry) method.now arguments.now) }
{
    if arguments.is_empty() {
        return input_none(alloc, params, method);
    }
    match only_argument(arguments) {
        Some(argument) => input_method(alloc, body, params, method, argument.as_text()),
        None => Ok(Value::null()),
    }
}

fn input_named(alloc: Global, body: &Payload<'_>, name: &str) -> Result<Value, Memory>
    ensures { IfOk result (λ v. v ≡ input_named_of body.now name.now) }
{
    if name == "body" {
        made_value(lossy(alloc, body.bytes())?)
    } else {
        Ok(Value::null())
    }
}

fn input_step(
    alloc: Global,
    body: &Payload<'_>,
    params: Params<'_>,
    step: &Step,
) -> Result<Value, Memory>
    ensures { IfOk result (λ v. v ≡ input_step_of body.now (params_of params.entry) (stepped_of step.now)) }
{
    match step {
        Step::Name(name) => input_named(alloc, body, name.as_str()),
        Step::Index(_) => Ok(Value::null()),
        Step::Call(method, arguments) => {
            input_call(alloc, body, params, method.as_str(), arguments.as_slice())
        }
    }
}

/// The value of a path below `$input`.
#[tactic(auto, unfolding(crate::specs::Input::input_value))]
pub fn input_value(
    alloc: Global,
    body: &Payload<'_>,
    params: Params<'_>,
    path: &[Step],
) -> Result<Value, Memory>
    ensures { IfOk result (λ v. v ≡ input_value_of body.now (params_of params.entry) (map stepped_of path.now)) }
{
    match only_step(path) {
        Some(step) => input_step(alloc, body, params, step),
        None => Ok(Value::null()),
    }
}
