// Reads the arguments of a macro's call.
ghost use Rattle.std.specs.Prelude.{◌≡◌, ◌+◌, ◌<◌, length, Ok, IfOk, IfSome, OnOk};
ghost use Rattle.std.specs.Option.{option_map};
ghost use Rattle.vtl_grammar.specs.Tree.{expr, no_exprs};
ghost use Rattle.vtl_grammar.specs.Bytes.{taken as taken_of};
ghost use Rattle.vtl_grammar.specs.Loops.{first, put_first, gather};
ghost use Rattle.vtl_grammar.specs.Expressions.{reader, inside};
ghost use Rattle.vtl_grammar.specs.Directives.{another as another_of, after_comma as after_comma_of, call_turn as call_turn_of, call_arguments as call_arguments_of, call_in as call_in_of, call_at as call_at_of};
ghost use Rattle.vtl_reader.specs.Nodes.{expr_of, exprs_made, AllBelow, Keeps};
ghost use Rattle.vtl_reader.specs.Views.{Gives, turn_of};

use crate::arena::Arena;
use crate::error::{ReadError, closed_at};
use crate::exprs::read_rank;
use std::alloc::Global;
use vtl_grammar::Fault;
use vtl_words::bytes::{bad, taken, white};
use vtl_words::directives::{Between, behind_argument, bracket, is_apart};
use vtl_words::names::Names;
use vtl_words::operators::How;

// One more argument.
fn another<'a>(
    alloc: Global,
    names: &Names,
    arena: &mut Arena,
    inner: u32,
    bs: &'a [u8],
) -> Result<(Option<usize>, &'a [u8]), ReadError>
    ensures gives { Gives (λ p. turn_of no_exprs (option_map (expr_of arena.new.exprs) p.0) p.1.now) result (another_of (reader names.now (inside names.now inner)) bs.now) }
    ensures kept { OnOk result (Keeps arena.old arena.new) }
    ensures stands { IfOk result (λ p. IfSome p.0 (λ k. k < length arena.new.exprs)) }
{
    match read_rank(alloc, names, arena, inner, 6, How::Argument, bs) {
        Ok((k, rest)) => Ok((Some(k), rest)),
        Err(e) => Err(e),
    }
}

// Behind a comma, where another argument has to stand.
fn after_comma<'a>(
    alloc: Global,
    names: &Names,
    arena: &mut Arena,
    inner: u32,
    bs: &'a [u8],
) -> Result<(Option<usize>, &'a [u8]), ReadError>
    ensures gives { Gives (λ p. turn_of no_exprs (option_map (expr_of arena.new.exprs) p.0) p.1.now) result (after_comma_of (reader names.now (inside names.now inner)) bs.now) }
    ensures kept { OnOk result (Keeps arena.old arena.new) }
    ensures stands { IfOk result (λ p. IfSome p.0 (λ k. k < length arena.new.exprs)) }
{
    let (closes, _) = taken(b')', bs);
    if closes {
        return Err(ReadError::Met(bad(bs)));
    }
    another(alloc, names, arena, inner, bs)
}

// Behind an argument: the end of the call, or the next argument.
#[tactic(auto, using(crate::proofs::Bad::bad_is, crate::proofs::Trees::keeps_all))]
fn next_argument<'a>(
    alloc: Global,
    names: &Names,
    arena: &mut Arena,
    inner: u32,
    bs: &'a [u8],
) -> Result<(Option<usize>, &'a [u8]), ReadError>
    ensures gives { Gives (λ p. turn_of no_exprs (option_map (expr_of arena.new.exprs) p.0) p.1.now) result (call_turn_of (reader names.now (inside names.now inner)) bs.now) }
    ensures kept { OnOk result (Keeps arena.old arena.new) }
    ensures stands { IfOk result (λ p. IfSome p.0 (λ k. k < length arena.new.exprs)) }
{
    let here = white(bs);
    match behind_argument(is_apart(bs), here) {
        Between::Close(rest) => Ok((None, rest)),
        Between::Comma(rest) => after_comma(alloc, names, arena, inner, white(rest)),
        Between::Space => another(alloc, names, arena, inner, here),
        Between::Nothing => Err(ReadError::Met(bad(here))),
    }
}

// The arguments behind one.
fn further_arguments<'a>(
    alloc: Global,
    names: &Names,
    arena: &mut Arena,
    inner: u32,
    one: usize,
    bs: &'a [u8],
) -> Result<(Vec<usize>, &'a [u8]), ReadError>
    requires stands { one < length arena.old.exprs }
    ensures gives { Gives (λ p. (exprs_made (expr_of arena.new.exprs) p.0.items, p.1.now)) result (put_first expr (expr_of arena.old.exprs one) (gather (first expr) (call_turn_of (reader names.now (inside names.now inner))) (length bs.now + 1) bs.now)) }
    ensures kept { OnOk result (Keeps arena.old arena.new) }
    ensures below { IfOk result (λ p. AllBelow (length arena.new.exprs) p.0.items) }
{
    let mut ids = Vec::new(alloc);
    ids.push(one)?;
    let mut rest = bs;
    let mut fuel = bs.len() + 1;
    while fuel > 0 {
        fuel -= 1;
        let (next, behind) = match next_argument(alloc, names, arena, inner, rest) {
            Ok(p) => p,
            Err(e) => return Err(e),
        };
        match next {
            None => return Ok((ids, behind)),
            Some(k) => {
                ids.push(k)?;
                rest = behind;
            }
        }
    }
    Err(ReadError::Met(Fault::Unclosed(0)))
}

// Behind the bracket of a call and white space.
#[tactic(auto, using(crate::proofs::Trees::keeps_all, crate::proofs::Trees::keeps_trans))]
fn call_in<'a>(
    alloc: Global,
    names: &Names,
    arena: &mut Arena,
    inner: u32,
    bs: &'a [u8],
) -> Result<(Vec<usize>, &'a [u8]), ReadError>
    ensures gives { Gives (λ p. (exprs_made (expr_of arena.new.exprs) p.0.items, p.1.now)) result (call_in_of (reader names.now (inside names.now inner)) (taken_of 41 bs.now)) }
    ensures kept { OnOk result (Keeps arena.old arena.new) }
    ensures below { IfOk result (λ p. AllBelow (length arena.new.exprs) p.0.items) }
{
    let (closes, rest) = taken(b')', bs);
    if closes {
        return Ok((Vec::new(alloc), rest));
    }
    let (one, rest) = match read_rank(alloc, names, arena, inner, 6, How::Argument, rest) {
        Ok(p) => p,
        Err(e) => return Err(e),
    };
    further_arguments(alloc, names, arena, inner, one, rest)
}

/// The arguments of the call at this place, behind the macro's name.
#[tactic(auto, using(crate::proofs::Ranks::inside_none, crate::proofs::Ranks::inside_some))]
pub fn call_at<'a>(
    alloc: Global,
    names: &Names,
    arena: &mut Arena,
    level: u32,
    at: usize,
    bs: &'a [u8],
) -> Result<(Vec<usize>, &'a [u8]), ReadError>
    ensures gives { Gives (λ p. (exprs_made (expr_of arena.new.exprs) p.0.items, p.1.now)) result (call_at_of (inside names.now level) at bs.now) }
    ensures kept { OnOk result (Keeps arena.old arena.new) }
    ensures below { IfOk result (λ p. AllBelow (length arena.new.exprs) p.0.items) }
{
    let rest = match bracket(at, bs) {
        Ok(rest) => rest,
        Err(fault) => return Err(ReadError::Met(fault)),
    };
    let opening = rest.len() + 1;
    if level == 0 {
        return Err(ReadError::Met(Fault::TooDeep(opening)));
    }
    match call_in(alloc, names, arena, level - 1, white(rest)) {
        Ok(p) => Ok(p),
        Err(e) => Err(closed_at(opening, e)),
    }
}
