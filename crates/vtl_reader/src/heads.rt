// The heads of directives, from behind their words to the closing bracket.
ghost use Rattle.std.specs.Prelude.{◌≡◌, ◌<◌, ℕ, List, [], length, Ok, IfOk, IfSome, OnOk, option_copied};
ghost use Rattle.vtl_grammar.specs.Bytes.{taken as taken_of};
ghost use Rattle.vtl_grammar.specs.Faults.{up_to};
ghost use Rattle.vtl_grammar.specs.Operators.{alone};
ghost use Rattle.vtl_grammar.specs.Expressions.{reader, inside};
ghost use Rattle.vtl_grammar.specs.Directives.{condition as condition_of, path as path_of, path_turn, params as params_of, param_turn, context_path_at, target as target_spec, target_of as target_of_spec, left_of as left_of_spec, set_at as set_at_of, set_in as set_in_of, foreach_at as foreach_at_of, foreach_in as foreach_in_of, macro_at as macro_at_of, macro_in as macro_in_of};
ghost use Rattle.vtl_reader.specs.Nodes.{expr_of, target_of, Keeps};
ghost use Rattle.vtl_reader.specs.Views.{Gives, turn_of};

use crate::arena::Arena;
use crate::error::{ReadError, closed_at, text_of};
use crate::exprs::read_rank;
use crate::nodes::Target;
use gw_base::Text;
use std::alloc::Global;
use vtl_grammar::Fault;
use vtl_words::bytes::{expect, taken, white};
use vtl_words::directives::{
    Left, bad_form, bracket, form, form_name, goes_on, is_apart, left_of, loop_variable,
};
use vtl_words::names::Names;
use vtl_words::operators::How;

// An expression and its closing bracket.
fn closed_expr<'a>(
    alloc: Global,
    names: &Names,
    arena: &mut Arena,
    level: u32,
    bs: &'a [u8],
) -> Result<(usize, &'a [u8]), ReadError>
    ensures gives { Gives (λ p. (expr_of arena.new.exprs p.0, p.1.now)) result (up_to 41 (reader names.now (inside names.now level) 6 alone bs.now)) }
    ensures kept { OnOk result (Keeps arena.old arena.new) }
    ensures stands { IfOk result (λ p. p.0 < length arena.new.exprs) }
{
    let (k, rest) = match read_rank(alloc, names, arena, level, 6, How::Alone, bs) {
        Ok(p) => p,
        Err(e) => return Err(e),
    };
    match expect(b')', white(rest)) {
        Ok(rest) => Ok((k, rest)),
        Err(fault) => Err(ReadError::Met(fault)),
    }
}

/// The condition of the `#if` or `#elseif` at this place.
pub fn condition<'a>(
    alloc: Global,
    names: &Names,
    arena: &mut Arena,
    level: u32,
    at: usize,
    bs: &'a [u8],
) -> Result<(usize, &'a [u8]), ReadError>
    ensures gives { Gives (λ p. (expr_of arena.new.exprs p.0, p.1.now)) result (condition_of (reader names.now (inside names.now level)) at bs.now) }
    ensures kept { OnOk result (Keeps arena.old arena.new) }
    ensures stands { IfOk result (λ p. p.0 < length arena.new.exprs) }
{
    let rest = match bracket(at, bs) {
        Ok(rest) => rest,
        Err(fault) => return Err(ReadError::Met(fault)),
    };
    match closed_expr(alloc, names, arena, level, rest) {
        Ok(p) => Ok(p),
        Err(e) => Err(closed_at(rest.len() + 1, e)),
    }
}

// The next name of a path, where one follows.
fn path_name<'a>(
    alloc: Global,
    at: usize,
    bs: &'a [u8],
) -> Result<(Option<Text>, &'a [u8]), ReadError>
    ensures { Gives (λ p. turn_of {A = List ℕ} [] p.0 p.1.now) result (path_turn at bs.now) }
{
    let (goes_on, rest) = taken(b'.', bs);
    if !goes_on {
        return Ok((None, rest));
    }
    let (name, rest) = match form_name(at, rest) {
        Ok(named) => named,
        Err(fault) => return Err(ReadError::Met(fault)),
    };
    let name = text_of(alloc, name)?;
    Ok((Some(name), rest))
}

// The names of a path below `$context`.
fn path<'a>(alloc: Global, at: usize, bs: &'a [u8]) -> Result<(Vec<Text>, &'a [u8]), ReadError>
    ensures { Gives (λ p. (p.0.items, p.1.now)) result (path_of at bs.now) }
{
    let mut names = Vec::new(alloc);
    let mut rest = bs;
    let mut fuel = bs.len() + 1;
    while fuel > 0 {
        fuel -= 1;
        let (next, behind) = match path_name(alloc, at, rest) {
            Ok(p) => p,
            Err(e) => return Err(e),
        };
        match next {
            None => return Ok((names, behind)),
            Some(name) => {
                names.push(name)?;
                rest = behind;
            }
        }
    }
    Err(ReadError::Met(Fault::Unclosed(0)))
}

// A path below `$context`, which has a name at least.
fn context_path<'a>(alloc: Global, at: usize, bs: &'a [u8]) -> Result<(Target, &'a [u8]), ReadError>
    ensures { Gives (λ p. (target_of p.0, p.1.now)) result (context_path_at at bs.now) }
{
    let (names, rest) = match path(alloc, at, bs) {
        Ok(p) => p,
        Err(e) => return Err(e),
    };
    if names.is_empty() {
        return Err(ReadError::Met(Fault::BadDirective(at)));
    }
    Ok((Target::Context(names), rest))
}

// The left side of a `#set`, behind its name.
fn target_behind<'a>(
    alloc: Global,
    at: usize,
    params: &Names,
    name: &[u8],
    bs: &'a [u8],
) -> Result<(Target, &'a [u8]), ReadError>
    ensures { Gives (λ p. (target_of p.0, p.1.now)) result (target_of_spec at (left_of_spec params.now name.now) name.now bs.now) }
{
    match left_of(params, name) {
        Left::Parameter => {
            if goes_on(bs) {
                Err(ReadError::Met(Fault::BadDirective(at)))
            } else {
                Err(ReadError::Met(Fault::ParamAssigned(name.len() + bs.len())))
            }
        }
        Left::ContextPath => context_path(alloc, at, bs),
        Left::Refused => Err(ReadError::Met(Fault::BadDirective(at))),
        Left::Free => {
            let name = text_of(alloc, name)?;
            Ok((Target::Variable(name), bs))
        }
    }
}

// The left side of a `#set`, behind its `$`.
fn target<'a>(
    alloc: Global,
    at: usize,
    params: &Names,
    bs: &'a [u8],
) -> Result<(Target, &'a [u8]), ReadError>
    ensures { Gives (λ p. (target_of p.0, p.1.now)) result (target_spec at params.now (taken_of 123 bs.now)) }
{
    let (braced, rest) = taken(b'{', bs);
    let (name, rest) = match form_name(at, rest) {
        Ok(named) => named,
        Err(fault) => return Err(ReadError::Met(fault)),
    };
    if rest.is_empty() {
        return Err(ReadError::Met(Fault::Unclosed(0)));
    }
    let (target, rest) = match target_behind(alloc, at, params, name, rest) {
        Ok(p) => p,
        Err(e) => return Err(e),
    };
    if !braced {
        return Ok((target, rest));
    }
    match form(at, b'}', rest) {
        Ok(rest) => Ok((target, rest)),
        Err(fault) => Err(ReadError::Met(fault)),
    }
}

// Behind the bracket of a `#set`.
fn set_in<'a>(
    alloc: Global,
    names: &Names,
    arena: &mut Arena,
    level: u32,
    at: usize,
    params: &Names,
    bs: &'a [u8],
) -> Result<(Target, usize, &'a [u8]), ReadError>
    ensures gives { Gives (λ p. ((target_of p.0, expr_of arena.new.exprs p.1), p.2.now)) result (set_in_of (reader names.now (inside names.now level)) at params.now bs.now) }
    ensures kept { OnOk result (Keeps arena.old arena.new) }
    ensures stands { IfOk result (λ p. p.1 < length arena.new.exprs) }
{
    let rest = match form(at, b'$', white(bs)) {
        Ok(rest) => rest,
        Err(fault) => return Err(ReadError::Met(fault)),
    };
    let (target, rest) = match target(alloc, at, params, rest) {
        Ok(p) => p,
        Err(e) => return Err(e),
    };
    let rest = match form(at, b'=', white(rest)) {
        Ok(rest) => rest,
        Err(fault) => return Err(ReadError::Met(fault)),
    };
    match closed_expr(alloc, names, arena, level, rest) {
        Ok((k, rest)) => Ok((target, k, rest)),
        Err(e) => Err(e),
    }
}

/// The `#set` at this place: what it writes, and the expression.
pub fn set_at<'a>(
    alloc: Global,
    names: &Names,
    arena: &mut Arena,
    level: u32,
    at: usize,
    params: &Names,
    bs: &'a [u8],
) -> Result<(Target, usize, &'a [u8]), ReadError>
    ensures gives { Gives (λ p. ((target_of p.0, expr_of arena.new.exprs p.1), p.2.now)) result (set_at_of (reader names.now (inside names.now level)) at params.now bs.now) }
    ensures kept { OnOk result (Keeps arena.old arena.new) }
    ensures stands { IfOk result (λ p. p.1 < length arena.new.exprs) }
{
    let rest = match bracket(at, bs) {
        Ok(rest) => rest,
        Err(fault) => return Err(ReadError::Met(fault)),
    };
    match set_in(alloc, names, arena, level, at, params, rest) {
        Ok(p) => Ok(p),
        Err(e) => Err(closed_at(rest.len() + 1, e)),
    }
}

// Behind the bracket of a `#foreach`.
fn foreach_in<'a>(
    alloc: Global,
    names: &Names,
    arena: &mut Arena,
    level: u32,
    at: usize,
    params: &Names,
    bs: &'a [u8],
) -> Result<(Text, usize, &'a [u8]), ReadError>
    ensures gives { Gives (λ p. ((p.0, expr_of arena.new.exprs p.1), p.2.now)) result (foreach_in_of (reader names.now (inside names.now level)) at params.now bs.now) }
    ensures kept { OnOk result (Keeps arena.old arena.new) }
    ensures stands { IfOk result (λ p. p.1 < length arena.new.exprs) }
{
    let rest = match form(at, b'$', white(bs)) {
        Ok(rest) => rest,
        Err(fault) => return Err(ReadError::Met(fault)),
    };
    let (name, rest) = match form_name(at, rest) {
        Ok(named) => named,
        Err(fault) => return Err(ReadError::Met(fault)),
    };
    let rest = match loop_variable(at, params, name, rest) {
        Ok(rest) => rest,
        Err(fault) => return Err(ReadError::Met(fault)),
    };
    let (k, rest) = match closed_expr(alloc, names, arena, level, rest) {
        Ok(p) => p,
        Err(e) => return Err(e),
    };
    let name = text_of(alloc, name)?;
    Ok((name, k, rest))
}

/// The head of the `#foreach` at this place: its loop variable and its list.
pub fn foreach_at<'a>(
    alloc: Global,
    names: &Names,
    arena: &mut Arena,
    level: u32,
    at: usize,
    params: &Names,
    bs: &'a [u8],
) -> Result<(Text, usize, &'a [u8]), ReadError>
    ensures gives { Gives (λ p. ((p.0, expr_of arena.new.exprs p.1), p.2.now)) result (foreach_at_of (reader names.now (inside names.now level)) at params.now bs.now) }
    ensures kept { OnOk result (Keeps arena.old arena.new) }
    ensures stands { IfOk result (λ p. p.1 < length arena.new.exprs) }
{
    let rest = match bracket(at, bs) {
        Ok(rest) => rest,
        Err(fault) => return Err(ReadError::Met(fault)),
    };
    match foreach_in(alloc, names, arena, level, at, params, rest) {
        Ok(p) => Ok(p),
        Err(e) => Err(closed_at(rest.len() + 1, e)),
    }
}

// The next parameter of a macro, where one follows.
#[tactic(auto, using(crate::proofs::Bad::bad_form_is))]
fn param<'a>(at: usize, bs: &'a [u8]) -> Result<(Option<&'a [u8]>, &'a [u8]), ReadError>
    ensures { Gives (λ p. turn_of {A = List ℕ} [] (option_copied p.0) p.1.now) result (param_turn at bs.now) }
{
    let (closes, rest) = taken(b')', white(bs));
    if closes {
        return Ok((None, rest));
    }
    if !is_apart(bs) {
        return Err(ReadError::Met(bad_form(at, rest)));
    }
    let rest = match form(at, b'$', rest) {
        Ok(rest) => rest,
        Err(fault) => return Err(ReadError::Met(fault)),
    };
    let (name, rest) = match form_name(at, rest) {
        Ok(named) => named,
        Err(fault) => return Err(ReadError::Met(fault)),
    };
    Ok((Some(name), rest))
}

// The parameters of a macro.
fn params<'a>(alloc: Global, at: usize, bs: &'a [u8]) -> Result<(Names, &'a [u8]), ReadError>
    ensures { Gives (λ p. (p.0, p.1.now)) result (params_of at bs.now) }
{
    let mut names = Names::new(alloc);
    let mut rest = bs;
    let mut fuel = bs.len() + 1;
    while fuel > 0 {
        fuel -= 1;
        let (next, behind) = match param(at, rest) {
            Ok(p) => p,
            Err(e) => return Err(e),
        };
        match next {
            None => return Ok((names, behind)),
            Some(name) => {
                names.push(alloc, name)?;
                rest = behind;
            }
        }
    }
    Err(ReadError::Met(Fault::Unclosed(0)))
}

// Behind the bracket of a `#macro`, where these are defined already.
fn macro_in<'a>(
    alloc: Global,
    at: usize,
    defined: &Names,
    bs: &'a [u8],
) -> Result<(Text, Names, &'a [u8]), ReadError>
    ensures { Gives (λ p. ((p.0, p.1), p.2.now)) result (macro_in_of at defined.now bs.now) }
{
    let (name, rest) = match form_name(at, white(bs)) {
        Ok(named) => named,
        Err(fault) => return Err(ReadError::Met(fault)),
    };
    if rest.is_empty() {
        return Err(ReadError::Met(Fault::Unclosed(0)));
    }
    if defined.contains(name) {
        return Err(ReadError::Met(Fault::BadDirective(at)));
    }
    let (params, rest) = match params(alloc, at, rest) {
        Ok(p) => p,
        Err(e) => return Err(e),
    };
    let name = text_of(alloc, name)?;
    Ok((name, params, rest))
}

/// The head of the `#macro` at this place: its name and its parameters.
pub fn macro_at<'a>(
    alloc: Global,
    at: usize,
    defined: &Names,
    bs: &'a [u8],
) -> Result<(Text, Names, &'a [u8]), ReadError>
    ensures { Gives (λ p. ((p.0, p.1), p.2.now)) result (macro_at_of at defined.now bs.now) }
{
    let rest = match bracket(at, bs) {
        Ok(rest) => rest,
        Err(fault) => return Err(ReadError::Met(fault)),
    };
    match macro_in(alloc, at, defined, rest) {
        Ok(p) => Ok(p),
        Err(e) => Err(closed_at(rest.len() + 1, e)),
    }
}
