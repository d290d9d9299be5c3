// References, from their names to their values.
ghost use Rattle.std.specs.Prelude.{◌≡◌, ◌+◌, map, IfOk};
ghost use Rattle.vtl_values.specs.Val.{string_bytes as bytes_in};
ghost use Rattle.vtl_methods.specs.Methods.{method_of, method_texts};
ghost use Rattle.vtl_values.specs.Printed.{printed};
ghost use Rattle.vtl_eval.specs.World.{make as make_of};
ghost use Rattle.vtl_eval.specs.References.{at_value, begun, asked, at_path, settled, after_name as after_name_of, after_index as after_index_of, after_call as after_call_of, ended as ended_of, turn_value as turn_value_of};
ghost use Rattle.vtl_eval.specs.Meaning.{shown};
ghost use Rattle.vtl_eval.specs.Roots.{name as name_step};
ghost use Rattle.vtl_eval.specs.Views.{Gives, Does, scene_of, names_of, reached_of, stepped_of};

use crate::pieces::text_value;
use crate::reached::Reached;
use crate::roots::{Root, Roots, Step};
use crate::run::{Run, find, make, make_value, room};
use crate::stop::{Fail, Limit};
use gw_base::{Memory, Text};
use std::alloc::Global;
use vtl_methods::call;
use vtl_values::{Lack, Value, item_at, member};

fn copy_text(alloc: Global, text: &str) -> Result<Text, Memory>
    ensures { IfOk result (λ t. t ≡ text.now) }
{
    Ok(Text::of(String::from_str(alloc, text)?))
}

/// What a name begins with.
pub fn begin_reference(run: &Run, alloc: Global, name: &str) -> Result<Reached, Memory>
    ensures { IfOk result (λ r. reached_of r ≡ begun name.now (names_of run.now.names.items)) }
{
    match name {
        "context" => Ok(Reached::Context(Vec::new(alloc))),
        "input" => Ok(Reached::Root(Root::Input)),
        "util" => Ok(Reached::Root(Root::Util)),
        "stageVariables" => Ok(Reached::Root(Root::StageVariables)),
        "foreach" => Ok(Reached::Loop),
        _ => Ok(Reached::Value(find(run, name)?)),
    }
}

// `$foreach.count`, `$foreach.index` and `$foreach.hasNext`.
fn turn_value(run: &Run, name: &str) -> Value
    ensures { result ≡ turn_value_of name.now run.now.turn }
{
    match run.turn {
        None => Value::null(),
        Some(turn) => match name {
            "count" => Value::whole(turn.before as i64 + 1),
            "index" => Value::whole(turn.before as i64),
            "hasNext" => Value::boolean(turn.before as u64 + 1 < turn.all as u64),
            _ => Value::null(),
        },
    }
}

// Asks the roots for the value of a path.
fn ask<R: Roots>(
    alloc: Global,
    roots: &R,
    run: &mut Run,
    root: Root,
    path: &[Step],
) -> Result<Reached, Fail>
    ensures { Gives reached_of result (scene_of run.new) (R.kept roots.now) (asked (R.meanings roots.now) root (map stepped_of path.now) (scene_of run.old, R.kept roots.now)) }
{
    let value = roots.get(alloc, root, path)?;
    make_value(run, &value)?;
    Ok(Reached::Value(value))
}

// The steps that names below `$context` are.
fn name_steps(alloc: Global, names: Vec<Text>) -> Result<Vec<Step>, Memory>
    ensures { IfOk result (λ steps. map stepped_of steps.items ≡ map name_step names.items) }
{
    let mut steps = Vec::new(alloc);
    for name in names {
        steps.push(Step::Name(name))?;
    }
    Ok(steps)
}

// The value at names below `$context`.
fn at_names<R: Roots>(
    alloc: Global,
    roots: &R,
    run: &mut Run,
    names: Vec<Text>,
) -> Result<Reached, Fail>
    ensures { Gives reached_of result (scene_of run.new) (R.kept roots.now) (at_path (R.meanings roots.now) names.items (scene_of run.old, R.kept roots.now)) }
{
    if names.is_empty() {
        return Ok(Reached::Value(Value::null()));
    }
    let path = name_steps(alloc, names)?;
    ask(alloc, roots, run, Root::Context, &path)
}

/// Names below `$context` end at another step.
pub fn settle<R: Roots>(
    alloc: Global,
    roots: &R,
    run: &mut Run,
    reached: Reached,
) -> Result<Reached, Fail>
    ensures { Gives reached_of result (scene_of run.new) (R.kept roots.now) (settled (R.meanings roots.now) (reached_of reached) (scene_of run.old, R.kept roots.now)) }
{
    match reached {
        Reached::Context(names) => at_names(alloc, roots, run, names),
        Reached::Value(value) => Ok(Reached::Value(value)),
        Reached::Root(root) => Ok(Reached::Root(root)),
        Reached::Loop => Ok(Reached::Loop),
    }
}

/// `.name`.
pub fn after_name<R: Roots>(
    alloc: Global,
    roots: &R,
    run: &mut Run,
    reached: Reached,
    name: &str,
) -> Result<Reached, Fail>
    ensures { Gives reached_of result (scene_of run.new) (R.kept roots.now) (after_name_of (R.meanings roots.now) name.now (reached_of reached) (scene_of run.old, R.kept roots.now)) }
{
    match reached {
        Reached::Value(value) => Ok(Reached::Value(member(&value, name)?)),
        Reached::Root(root) => {
            let mut path = Vec::new(alloc);
            path.push(Step::Name(copy_text(alloc, name)?))?;
            ask(alloc, roots, run, root, &path)
        }
        Reached::Context(names) => {
            let mut names = names;
            names.push(copy_text(alloc, name)?)?;
            Ok(Reached::Context(names))
        }
        Reached::Loop => Ok(Reached::Value(turn_value(run, name))),
    }
}

/// `[index]`.
pub fn after_index<R: Roots>(
    alloc: Global,
    roots: &R,
    run: &mut Run,
    reached: Reached,
    index: Value,
) -> Result<Reached, Fail>
    ensures { Gives reached_of result (scene_of run.new) (R.kept roots.now) (after_index_of (R.meanings roots.now) (reached_of reached) index (scene_of run.old, R.kept roots.now)) }
{
    match reached {
        Reached::Value(value) => Ok(Reached::Value(item_at(&index, &value)?)),
        Reached::Root(root) => {
            let mut path = Vec::new(alloc);
            path.push(Step::Index(index))?;
            ask(alloc, roots, run, root, &path)
        }
        Reached::Context(_) => Ok(Reached::Value(Value::null())),
        Reached::Loop => Ok(Reached::Value(Value::null())),
    }
}

// A method of a value.
fn call_method(
    alloc: Global,
    run: &mut Run,
    value: &Value,
    name: &str,
    arguments: &[Value],
) -> Result<Value, Fail>
    ensures value { IfOk result (λ v. v ≡ method_of name.now value.now arguments.now) }
    ensures does { Does result (scene_of run.new) (make_of (method_texts name.now value.now arguments.now + bytes_in (method_of name.now value.now arguments.now)) (scene_of run.old)) }
{
    match call(alloc, value, name, arguments, room(run)) {
        Ok((value, bytes)) => {
            make(run, bytes)?;
            Ok(value)
        }
        Err(Lack::Room) => Err(Fail::Met(Limit::Bytes)),
        Err(Lack::Memory) => Err(Fail::Memory),
    }
}

/// `.name(arguments)` of a value. The roots are not asked; the contract names what is kept in them.
pub fn call_value<R: Roots>(
    alloc: Global,
    _roots: &R,
    run: &mut Run,
    value: &Value,
    name: &str,
    arguments: &[Value],
) -> Result<Value, Fail>
    ensures { Gives at_value result (scene_of run.new) (R.kept _roots.now) (after_call_of (R.meanings _roots.now) name.now (at_value value.now) arguments.now (scene_of run.old, R.kept _roots.now)) }
{
    call_method(alloc, run, value, name, arguments)
}

/// `.name(arguments)`.
pub fn after_call<R: Roots>(
    alloc: Global,
    roots: &R,
    run: &mut Run,
    reached: Reached,
    name: &str,
    arguments: Vec<Value>,
) -> Result<Reached, Fail>
    ensures { Gives reached_of result (scene_of run.new) (R.kept roots.now) (after_call_of (R.meanings roots.now) name.now (reached_of reached) arguments.items (scene_of run.old, R.kept roots.now)) }
{
    match reached {
        Reached::Value(value) => {
            let value = call_value(alloc, roots, run, &value, name, &arguments)?;
            Ok(Reached::Value(value))
        }
        Reached::Root(root) => {
            let mut path = Vec::new(alloc);
            path.push(Step::Call(copy_text(alloc, name)?, arguments))?;
            ask(alloc, roots, run, root, &path)
        }
        Reached::Context(_) => Ok(Reached::Value(Value::null())),
        Reached::Loop => Ok(Reached::Value(Value::null())),
    }
}

/// The value at the end of a reference.
pub fn end_reference<R: Roots>(
    alloc: Global,
    roots: &R,
    run: &mut Run,
    reached: Reached,
) -> Result<Value, Fail>
    ensures { Gives (λ v. v) result (scene_of run.new) (R.kept roots.now) (ended_of (R.meanings roots.now) (reached_of reached) (scene_of run.old, R.kept roots.now)) }
{
    match settle(alloc, roots, run, reached)? {
        Reached::Value(value) => Ok(value),
        Reached::Root(_) => Ok(Value::null()),
        Reached::Context(_) => Ok(Value::null()),
        Reached::Loop => Ok(Value::null()),
    }
}

/// A value as a string prints it: the source of its reference where it is null.
pub fn shown_value(alloc: Global, source: &str, value: Value) -> Result<Value, Memory>
    ensures { IfOk result (λ v. printed v ≡ shown source.now value) }
{
    if value.is_null() {
        text_value(alloc, source)
    } else {
        Ok(value)
    }
}
