// Reads expressions, with their strings and references.
ghost use Rattle.std.specs.Prelude.{◌≡◌, ◌+◌, ◌-◌, ◌<◌, false, ℕ, List, [], ◌∷◌, ◌++◌, length, Some, Ok, Err, IfOk, IfErr, OnOk, IfSome, MatchResult};
ghost use Rattle.std.specs.Option.{option_map};
ghost use Rattle.vtl_grammar.specs.Tree.{Expr, Exprs, expr, listed, no_exprs, no_pairs, no_steps, no_parts, mapped, binary};
ghost use Rattle.vtl_grammar.specs.Bytes.{taken as taken_of, white as white_of};
ghost use Rattle.vtl_grammar.specs.Faults.{Read};
ghost use Rattle.vtl_grammar.specs.Loops.{last};
ghost use Rattle.vtl_grammar.specs.Methods.{arity as arity_of};
ghost use Rattle.vtl_grammar.specs.References.{begun, source, at_dot, steps_from, steps_at, step_turn, too_many as too_many_of, arguments, arguments_in, argument_at, arguments_after, index_in};
ghost use Rattle.vtl_grammar.specs.Strings.{single_quoted, double_quoted, parts_of, part_turn};
ghost use Rattle.vtl_grammar.specs.Lists.{list_in, list_on, range_from, elements, element_turn, map_in, pairs, pair_turn, pair_at};
ghost use Rattle.vtl_grammar.specs.Expressions.{operand, ranked, links, inside, reader as reader_of, negation as negation_of, round_in, square_in, brace_in, dollar};
ghost use Rattle.vtl_words.specs.Views.{how_of, op_of};
ghost use Rattle.vtl_words.specs.Fronts.{dots_view};
ghost use Rattle.vtl_reader.specs.Nodes.{expr_of, exprs_made, step_made, steps_made, part_made, parts_made, pair_made, pairs_made, chained, AllBelow, StepBelow, StepsBelow, PartBelow, PartsBelow, PairBelow, PairsBelow, LinksBelow, Keeps};
ghost use Rattle.vtl_reader.specs.Views.{Gives, turn_of, ahead_of};

use crate::arena::Arena;
use crate::error::{ReadError, closed_at, moved_by, text_of};
use crate::nodes::{ExprNode, Link, Pair, Part, Step};
use gw_base::Text;
use std::alloc::Global;
use vtl_grammar::Fault;
use vtl_words::bytes::{bad, expect, taken, until_byte, white, whole_word};
use vtl_words::fronts::{Piece, piece_at, run_len};
use vtl_words::leads::{Lead, lead_of};
use vtl_words::methods::arity;
use vtl_words::names::Names;
use vtl_words::numbers::{bad_not, boolean, minus_number, number};
use vtl_words::operators::{Found, How, next_operator, rank};
use vtl_words::references::{
    Begun, Dots, StepFront, begins_operand, begun_at, dots_in, dots_out, step_front,
};

// The operands of a chain, as one node where there is more than one.
fn join<'a>(
    arena: &mut Arena,
    first: usize,
    further: Vec<Link>,
    rest: &'a [u8],
) -> Result<(usize, &'a [u8]), ReadError>
    requires stands { first < length arena.old.exprs }
    requires below { LinksBelow (length arena.old.exprs) further.items }
    ensures gives { Gives {Y = Expr × List ℕ} (λ p. (expr_of arena.new.exprs p.0, p.1.now)) result (Ok (chained (expr_of arena.old.exprs) (expr_of arena.old.exprs first) further.items, rest.now)) }
    ensures kept { OnOk result (Keeps arena.old arena.new) }
    ensures stands { IfOk result (λ p. p.0 < length arena.new.exprs) }
{
    if further.is_empty() {
        return Ok((first, rest));
    }
    let k = arena.add_expr(ExprNode::Chain(first, further))?;
    Ok((k, rest))
}

// A list of these elements.
fn close_list<'a>(
    arena: &mut Arena,
    ids: Vec<usize>,
    rest: &'a [u8],
) -> Result<(usize, &'a [u8]), ReadError>
    requires below { AllBelow (length arena.old.exprs) ids.items }
    ensures gives { Gives {Y = Expr × List ℕ} (λ p. (expr_of arena.new.exprs p.0, p.1.now)) result (Ok (listed (exprs_made (expr_of arena.old.exprs) ids.items), rest.now)) }
    ensures kept { OnOk result (Keeps arena.old arena.new) }
    ensures stands { IfOk result (λ p. p.0 < length arena.new.exprs) }
{
    let k = arena.add_expr(ExprNode::List(ids))?;
    Ok((k, rest))
}

// A map of these pairs.
fn close_map<'a>(
    arena: &mut Arena,
    pairs: Vec<Pair>,
    rest: &'a [u8],
) -> Result<(usize, &'a [u8]), ReadError>
    requires below { PairsBelow (length arena.old.exprs) pairs.items }
    ensures gives { Gives {Y = Expr × List ℕ} (λ p. (expr_of arena.new.exprs p.0, p.1.now)) result (Ok (mapped (pairs_made (expr_of arena.old.exprs) pairs.items), rest.now)) }
    ensures kept { OnOk result (Keeps arena.old arena.new) }
    ensures stands { IfOk result (λ p. p.0 < length arena.new.exprs) }
{
    let k = arena.add_expr(ExprNode::Map(pairs))?;
    Ok((k, rest))
}

// A string behind its `'`.
fn read_single<'a>(
    alloc: Global,
    arena: &mut Arena,
    bs: &'a [u8],
) -> Result<(usize, &'a [u8]), ReadError>
    ensures gives { Gives (λ p. (expr_of arena.new.exprs p.0, p.1.now)) result (single_quoted bs.now) }
    ensures kept { OnOk result (Keeps arena.old arena.new) }
    ensures stands { IfOk result (λ p. p.0 < length arena.new.exprs) }
{
    match until_byte(b'\'', bs) {
        Some((inside, rest)) => {
            let text = text_of(alloc, inside)?;
            let k = arena.add_expr(ExprNode::Text(text))?;
            Ok((k, rest))
        }
        None => Err(ReadError::Met(Fault::Unclosed(bs.len() + 1))),
    }
}

/// The source of a reference that begins all, with rest behind it: nothing where it is quiet.
pub fn source_of(alloc: Global, quiet: bool, all: &[u8], rest: &[u8]) -> Result<Text, ReadError>
    ensures ok { IfOk result (λ t. t ≡ source quiet all.now rest.now) }
    ensures err { IfErr result (λ e. e ≡ ReadError.Memory) }
{
    if quiet {
        return Ok(Text::of(String::new(alloc)));
    }
    let n = all.len().saturating_sub(rest.len());
    text_of(alloc, &all[..n])
}

// An operand of this rank: 6 is a whole expression, 0 has no binary operator of its own.
#[cycle(exprs)]
#[tactic(auto, using(crate::proofs::Ranks::ranked_none, crate::proofs::Ranks::ranked_some, crate::proofs::Trees::keeps_trans))]
pub fn read_rank<'a>(
    alloc: Global,
    names: &Names,
    arena: &mut Arena,
    level: u32,
    order: u32,
    how: How,
    bs: &'a [u8],
) -> Result<(usize, &'a [u8]), ReadError>
    ensures gives { Gives (λ p. (expr_of arena.new.exprs p.0, p.1.now)) result (ranked (operand names.now (inside names.now level)) order (how_of how) bs.now) }
    ensures kept { OnOk result (Keeps arena.old arena.new) }
    ensures stands { IfOk result (λ p. p.0 < length arena.new.exprs) }
{
    if order == 0 {
        return read_operand(alloc, names, arena, level, how, bs);
    }
    let (first, rest) = match read_rank(alloc, names, arena, level, order - 1, how, bs) {
        Ok(p) => p,
        Err(e) => return Err(e),
    };
    read_links(alloc, names, arena, level, order, how, first, rest)
}

// The operators of this rank that follow the first operand, each with its own.
#[cycle(exprs)]
fn read_links<'a>(
    alloc: Global,
    names: &Names,
    arena: &mut Arena,
    level: u32,
    order: u32,
    how: How,
    first: usize,
    bs: &'a [u8],
) -> Result<(usize, &'a [u8]), ReadError>
    requires stands { first < length arena.old.exprs }
    requires order { 0 < order }
    ensures gives { Gives (λ p. (expr_of arena.new.exprs p.0, p.1.now)) result (links (ranked (operand names.now (inside names.now level)) (order - 1) (how_of how)) (how_of how) order (length bs.now + 1) (expr_of arena.old.exprs first) bs.now) }
    ensures kept { OnOk result (Keeps arena.old arena.new) }
    ensures stands { IfOk result (λ p. p.0 < length arena.new.exprs) }
{
    let mut further = Vec::new(alloc);
    let mut rest = bs;
    let mut fuel = bs.len() + 1;
    while fuel > 0 {
        fuel -= 1;
        let found = match next_operator(how, rest) {
            Ok(found) => found,
            Err(fault) => return Err(ReadError::Met(fault)),
        };
        let (operator, more) = match found {
            Found::Nothing => return join(arena, first, further, rest),
            Found::One(operator, more) => (operator, more),
        };
        if rank(operator) != order {
            return join(arena, first, further, rest);
        }
        let (operand, behind) = match read_rank(alloc, names, arena, level, order - 1, how, more) {
            Ok(p) => p,
            Err(e) => return Err(e),
        };
        further.push(Link { operator, operand })?;
        rest = behind;
    }
    Err(ReadError::Met(Fault::Unclosed(0)))
}

// Behind a `!` or a `not` at this place.
#[cycle(exprs)]
#[tactic(auto, using(crate::proofs::Ranks::inside_none, crate::proofs::Ranks::inside_some, crate::proofs::Ranks::ranked_none, crate::proofs::Trees::keeps_trans))]
fn read_negation<'a>(
    alloc: Global,
    names: &Names,
    arena: &mut Arena,
    level: u32,
    how: How,
    at: usize,
    bs: &'a [u8],
) -> Result<(usize, &'a [u8]), ReadError>
    ensures gives { Gives (λ p. (expr_of arena.new.exprs p.0, p.1.now)) result (negation_of (inside names.now level) (how_of how) at bs.now) }
    ensures kept { OnOk result (Keeps arena.old arena.new) }
    ensures stands { IfOk result (λ p. p.0 < length arena.new.exprs) }
{
    if level == 0 {
        return Err(ReadError::Met(Fault::TooDeep(at)));
    }
    let (k, rest) = match read_rank(alloc, names, arena, level - 1, 0, how, bs) {
        Ok(p) => p,
        Err(e) => return Err(e),
    };
    let k = arena.add_expr(ExprNode::Negated(k))?;
    Ok((k, rest))
}

// An expression within round brackets, of which the first has been read.
#[cycle(exprs)]
#[tactic(auto, using(crate::proofs::Ranks::inside_none, crate::proofs::Ranks::inside_some))]
fn read_round<'a>(
    alloc: Global,
    names: &Names,
    arena: &mut Arena,
    level: u32,
    bs: &'a [u8],
) -> Result<(usize, &'a [u8]), ReadError>
    ensures gives { Gives (λ p. (expr_of arena.new.exprs p.0, p.1.now)) result (round_in (inside names.now level) bs.now) }
    ensures kept { OnOk result (Keeps arena.old arena.new) }
    ensures stands { IfOk result (λ p. p.0 < length arena.new.exprs) }
{
    let at = bs.len() + 1;
    if level == 0 {
        return Err(ReadError::Met(Fault::TooDeep(at)));
    }
    let (k, rest) = match read_rank(alloc, names, arena, level - 1, 6, How::Alone, bs) {
        Ok(p) => p,
        Err(e) => return Err(closed_at(at, e)),
    };
    match expect(b')', white(rest)) {
        Ok(rest) => Ok((k, rest)),
        Err(fault) => Err(closed_at(at, ReadError::Met(fault))),
    }
}

// A list or a range, of which the first bracket has been read.
#[cycle(exprs)]
#[tactic(auto, using(crate::proofs::Ranks::inside_none, crate::proofs::Ranks::inside_some))]
fn read_square<'a>(
    alloc: Global,
    names: &Names,
    arena: &mut Arena,
    level: u32,
    bs: &'a [u8],
) -> Result<(usize, &'a [u8]), ReadError>
    ensures gives { Gives (λ p. (expr_of arena.new.exprs p.0, p.1.now)) result (square_in (inside names.now level) bs.now) }
    ensures kept { OnOk result (Keeps arena.old arena.new) }
    ensures stands { IfOk result (λ p. p.0 < length arena.new.exprs) }
{
    let at = bs.len() + 1;
    if level == 0 {
        return Err(ReadError::Met(Fault::TooDeep(at)));
    }
    match read_list(alloc, names, arena, level - 1, white(bs)) {
        Ok(p) => Ok(p),
        Err(e) => Err(closed_at(at, e)),
    }
}

// The inside of a list or range.
#[cycle(exprs)]
#[tactic(auto, using(crate::proofs::Trees::keeps_trans))]
fn read_list<'a>(
    alloc: Global,
    names: &Names,
    arena: &mut Arena,
    inner: u32,
    bs: &'a [u8],
) -> Result<(usize, &'a [u8]), ReadError>
    ensures gives { Gives (λ p. (expr_of arena.new.exprs p.0, p.1.now)) result (list_in (reader_of names.now (inside names.now inner)) (taken_of 93 bs.now)) }
    ensures kept { OnOk result (Keeps arena.old arena.new) }
    ensures stands { IfOk result (λ p. p.0 < length arena.new.exprs) }
{
    let (is_empty, rest) = taken(b']', bs);
    if is_empty {
        return close_list(arena, Vec::new(alloc), rest);
    }
    let (first, rest) = match read_rank(alloc, names, arena, inner, 6, How::Ranging, rest) {
        Ok(p) => p,
        Err(e) => return Err(e),
    };
    read_behind_first(alloc, names, arena, inner, first, white(rest))
}

// Behind the first element of a list or range.
#[cycle(exprs)]
#[tactic(auto, using(crate::proofs::Trees::keeps_trans))]
fn read_behind_first<'a>(
    alloc: Global,
    names: &Names,
    arena: &mut Arena,
    inner: u32,
    first: usize,
    bs: &'a [u8],
) -> Result<(usize, &'a [u8]), ReadError>
    requires stands { first < length arena.old.exprs }
    ensures gives { Gives (λ p. (expr_of arena.new.exprs p.0, p.1.now)) result (list_on (reader_of names.now (inside names.now inner)) (expr_of arena.old.exprs first) (taken_of 46 bs.now)) }
    ensures kept { OnOk result (Keeps arena.old arena.new) }
    ensures stands { IfOk result (λ p. p.0 < length arena.new.exprs) }
{
    let (is_range, rest) = taken(b'.', bs);
    if is_range {
        return read_range(alloc, names, arena, inner, first, rest);
    }
    let (ids, rest) = match read_elements(alloc, names, arena, inner, first, rest) {
        Ok(p) => p,
        Err(e) => return Err(e),
    };
    close_list(arena, ids, rest)
}

// Behind the first dot of a range.
#[cycle(exprs)]
#[tactic(auto, using(crate::proofs::Trees::keeps_trans))]
fn read_range<'a>(
    alloc: Global,
    names: &Names,
    arena: &mut Arena,
    inner: u32,
    first: usize,
    bs: &'a [u8],
) -> Result<(usize, &'a [u8]), ReadError>
    requires stands { first < length arena.old.exprs }
    ensures gives { Gives (λ p. (expr_of arena.new.exprs p.0, p.1.now)) result (range_from (reader_of names.now (inside names.now inner)) (expr_of arena.old.exprs first) bs.now) }
    ensures kept { OnOk result (Keeps arena.old arena.new) }
    ensures stands { IfOk result (λ p. p.0 < length arena.new.exprs) }
{
    let rest = match expect(b'.', bs) {
        Ok(rest) => rest,
        Err(fault) => return Err(ReadError::Met(fault)),
    };
    let (last, rest) = match read_rank(alloc, names, arena, inner, 6, How::Alone, rest) {
        Ok(p) => p,
        Err(e) => return Err(e),
    };
    let rest = match expect(b']', white(rest)) {
        Ok(rest) => rest,
        Err(fault) => return Err(ReadError::Met(fault)),
    };
    let k = arena.add_expr(ExprNode::Range(first, last))?;
    Ok((k, rest))
}

// Behind an element: the end of the list, or the next element.
#[cycle(exprs)]
#[tactic(auto, using(crate::proofs::Trees::keeps_all))]
fn read_element<'a>(
    alloc: Global,
    names: &Names,
    arena: &mut Arena,
    inner: u32,
    bs: &'a [u8],
) -> Result<(Option<usize>, &'a [u8]), ReadError>
    ensures gives { Gives (λ p. turn_of no_exprs (option_map (expr_of arena.new.exprs) p.0) p.1.now) result (element_turn (reader_of names.now (inside names.now inner)) bs.now) }
    ensures kept { OnOk result (Keeps arena.old arena.new) }
    ensures stands { IfOk result (λ p. IfSome p.0 (λ k. k < length arena.new.exprs)) }
{
    match bs {
        [b']', rest @ ..] => Ok((None, rest)),
        [b',', more @ ..] => match read_rank(alloc, names, arena, inner, 6, How::Alone, more) {
            Ok((k, rest)) => Ok((Some(k), white(rest))),
            Err(e) => Err(e),
        },
        _ => Err(ReadError::Met(bad(bs))),
    }
}

// The elements behind the first.
#[cycle(exprs)]
fn read_elements<'a>(
    alloc: Global,
    names: &Names,
    arena: &mut Arena,
    inner: u32,
    first: usize,
    bs: &'a [u8],
) -> Result<(Vec<usize>, &'a [u8]), ReadError>
    requires stands { first < length arena.old.exprs }
    ensures gives { Gives (λ p. (exprs_made (expr_of arena.new.exprs) p.0.items, p.1.now)) result (elements (reader_of names.now (inside names.now inner)) (expr_of arena.old.exprs first) bs.now) }
    ensures kept { OnOk result (Keeps arena.old arena.new) }
    ensures below { IfOk result (λ p. AllBelow (length arena.new.exprs) p.0.items) }
{
    let mut ids = Vec::new(alloc);
    ids.push(first)?;
    let mut rest = bs;
    let mut fuel = bs.len() + 1;
    while fuel > 0 {
        fuel -= 1;
        let (next, behind) = match read_element(alloc, names, arena, inner, rest) {
            Ok(p) => p,
            Err(e) => return Err(e),
        };
        match next {
            None => return Ok((ids, behind)),
            Some(k) => {
                ids.push(k)?;
                rest = behind;
            }
        }
    }
    Err(ReadError::Met(Fault::Unclosed(0)))
}

// A map, of which the first brace has been read.
#[cycle(exprs)]
#[tactic(auto, using(crate::proofs::Ranks::inside_none, crate::proofs::Ranks::inside_some))]
fn read_brace<'a>(
    alloc: Global,
    names: &Names,
    arena: &mut Arena,
    level: u32,
    bs: &'a [u8],
) -> Result<(usize, &'a [u8]), ReadError>
    ensures gives { Gives (λ p. (expr_of arena.new.exprs p.0, p.1.now)) result (brace_in (inside names.now level) bs.now) }
    ensures kept { OnOk result (Keeps arena.old arena.new) }
    ensures stands { IfOk result (λ p. p.0 < length arena.new.exprs) }
{
    let at = bs.len() + 1;
    if level == 0 {
        return Err(ReadError::Met(Fault::TooDeep(at)));
    }
    match read_map(alloc, names, arena, level - 1, white(bs)) {
        Ok(p) => Ok(p),
        Err(e) => Err(closed_at(at, e)),
    }
}

// The inside of a map.
#[cycle(exprs)]
#[tactic(auto, using(crate::proofs::Trees::keeps_trans))]
fn read_map<'a>(
    alloc: Global,
    names: &Names,
    arena: &mut Arena,
    inner: u32,
    bs: &'a [u8],
) -> Result<(usize, &'a [u8]), ReadError>
    ensures gives { Gives (λ p. (expr_of arena.new.exprs p.0, p.1.now)) result (map_in (reader_of names.now (inside names.now inner)) (taken_of 125 bs.now)) }
    ensures kept { OnOk result (Keeps arena.old arena.new) }
    ensures stands { IfOk result (λ p. p.0 < length arena.new.exprs) }
{
    let (is_empty, rest) = taken(b'}', bs);
    if is_empty {
        return close_map(arena, Vec::new(alloc), rest);
    }
    let (first, rest) = match read_pair(alloc, names, arena, inner, rest) {
        Ok(p) => p,
        Err(e) => return Err(e),
    };
    let (pairs, rest) = match read_pairs(alloc, names, arena, inner, first, rest) {
        Ok(p) => p,
        Err(e) => return Err(e),
    };
    close_map(arena, pairs, rest)
}

// A key, a colon and its value.
#[cycle(exprs)]
#[tactic(auto, using(crate::proofs::Trees::keeps_trans))]
fn read_pair<'a>(
    alloc: Global,
    names: &Names,
    arena: &mut Arena,
    inner: u32,
    bs: &'a [u8],
) -> Result<(Pair, &'a [u8]), ReadError>
    ensures gives { Gives (λ p. (pair_made (expr_of arena.new.exprs) p.0, p.1.now)) result (pair_at (reader_of names.now (inside names.now inner)) bs.now) }
    ensures kept { OnOk result (Keeps arena.old arena.new) }
    ensures stands { IfOk result (λ p. PairBelow (length arena.new.exprs) p.0) }
{
    let (key, rest) = match read_rank(alloc, names, arena, inner, 6, How::Alone, bs) {
        Ok(p) => p,
        Err(e) => return Err(e),
    };
    let rest = match expect(b':', white(rest)) {
        Ok(rest) => rest,
        Err(fault) => return Err(ReadError::Met(fault)),
    };
    let (value, rest) = match read_rank(alloc, names, arena, inner, 6, How::Alone, rest) {
        Ok(p) => p,
        Err(e) => return Err(e),
    };
    Ok((Pair { key, value }, white(rest)))
}

// Behind a pair: the end of the map, or the next pair.
#[cycle(exprs)]
#[tactic(auto, using(crate::proofs::Trees::keeps_all))]
fn read_next_pair<'a>(
    alloc: Global,
    names: &Names,
    arena: &mut Arena,
    inner: u32,
    bs: &'a [u8],
) -> Result<(Option<Pair>, &'a [u8]), ReadError>
    ensures gives { Gives (λ p. turn_of no_pairs (option_map (pair_made (expr_of arena.new.exprs)) p.0) p.1.now) result (pair_turn (reader_of names.now (inside names.now inner)) bs.now) }
    ensures kept { OnOk result (Keeps arena.old arena.new) }
    ensures stands { IfOk result (λ p. IfSome p.0 (PairBelow (length arena.new.exprs))) }
{
    match bs {
        [b'}', rest @ ..] => Ok((None, rest)),
        [b',', more @ ..] => match read_pair(alloc, names, arena, inner, more) {
            Ok((pair, rest)) => Ok((Some(pair), rest)),
            Err(e) => Err(e),
        },
        _ => Err(ReadError::Met(bad(bs))),
    }
}

// The pairs behind the first.
#[cycle(exprs)]
fn read_pairs<'a>(
    alloc: Global,
    names: &Names,
    arena: &mut Arena,
    inner: u32,
    first: Pair,
    bs: &'a [u8],
) -> Result<(Vec<Pair>, &'a [u8]), ReadError>
    requires stands { PairBelow (length arena.old.exprs) first }
    ensures gives { Gives (λ p. (pairs_made (expr_of arena.new.exprs) p.0.items, p.1.now)) result (pairs (reader_of names.now (inside names.now inner)) (pair_made (expr_of arena.old.exprs) first) bs.now) }
    ensures kept { OnOk result (Keeps arena.old arena.new) }
    ensures below { IfOk result (λ p. PairsBelow (length arena.new.exprs) p.0.items) }
{
    let mut pairs = Vec::new(alloc);
    pairs.push(first)?;
    let mut rest = bs;
    let mut fuel = bs.len() + 1;
    while fuel > 0 {
        fuel -= 1;
        let (next, behind) = match read_next_pair(alloc, names, arena, inner, rest) {
            Ok(p) => p,
            Err(e) => return Err(e),
        };
        match next {
            None => return Ok((pairs, behind)),
            Some(pair) => {
                pairs.push(pair)?;
                rest = behind;
            }
        }
    }
    Err(ReadError::Met(Fault::Unclosed(0)))
}

// An index behind its `[`.
#[cycle(exprs)]
#[tactic(auto, using(crate::proofs::Ranks::inside_none, crate::proofs::Ranks::inside_some))]
fn read_index<'a>(
    alloc: Global,
    names: &Names,
    arena: &mut Arena,
    level: u32,
    bs: &'a [u8],
) -> Result<(usize, &'a [u8]), ReadError>
    ensures gives { Gives (λ p. (expr_of arena.new.exprs p.0, p.1.now)) result (index_in (inside names.now level) bs.now) }
    ensures kept { OnOk result (Keeps arena.old arena.new) }
    ensures stands { IfOk result (λ p. p.0 < length arena.new.exprs) }
{
    let at = bs.len() + 1;
    if level == 0 {
        return Err(ReadError::Met(Fault::TooDeep(at)));
    }
    let (k, rest) = match read_rank(alloc, names, arena, level - 1, 6, How::Alone, bs) {
        Ok(p) => p,
        Err(e) => return Err(closed_at(at, e)),
    };
    match expect(b']', white(rest)) {
        Ok(rest) => Ok((k, rest)),
        Err(fault) => Err(closed_at(at, ReadError::Met(fault))),
    }
}

// Where a method has all its arguments, and another byte than the closing bracket follows.
fn too_many(at: usize, bs: &[u8]) -> Fault
    ensures { too_many_of at bs.now ≡ Err result }
{
    match bs {
        [b, ..] if begins_operand(*b) => Fault::UnsupportedMethod(at),
        _ => bad(bs),
    }
}

// Behind an argument, where so few are still needed and so many may still come: the end, or the next argument.
#[cycle(exprs)]
#[tactic(auto, using(crate::proofs::Trees::keeps_all))]
fn read_argument<'a>(
    alloc: Global,
    names: &Names,
    arena: &mut Arena,
    inner: u32,
    at: usize,
    few: u32,
    many: u32,
    bs: &'a [u8],
) -> Result<(Option<usize>, &'a [u8]), ReadError>
    ensures gives { Gives (λ p. ahead_of few many (option_map (expr_of arena.new.exprs) p.0) p.1.now) result (argument_at (reader_of names.now (inside names.now inner)) at few many bs.now) }
    ensures kept { OnOk result (Keeps arena.old arena.new) }
    ensures stands { IfOk result (λ p. IfSome p.0 (λ k. k < length arena.new.exprs)) }
{
    match bs {
        [b')', rest @ ..] => {
            if few == 0 {
                Ok((None, rest))
            } else {
                Err(ReadError::Met(Fault::UnsupportedMethod(at)))
            }
        }
        [b',', more @ ..] => {
            if many == 0 {
                return Err(ReadError::Met(Fault::UnsupportedMethod(at)));
            }
            match read_rank(alloc, names, arena, inner, 6, How::Alone, white(more)) {
                Ok((k, rest)) => Ok((Some(k), white(rest))),
                Err(e) => Err(e),
            }
        }
        _ => Err(ReadError::Met(bad(bs))),
    }
}

// The arguments behind the first.
#[cycle(exprs)]
fn read_arguments<'a>(
    alloc: Global,
    names: &Names,
    arena: &mut Arena,
    inner: u32,
    at: usize,
    few: u32,
    many: u32,
    first: usize,
    bs: &'a [u8],
) -> Result<(Vec<usize>, &'a [u8]), ReadError>
    requires stands { first < length arena.old.exprs }
    ensures gives { Gives (λ p. (exprs_made (expr_of arena.new.exprs) p.0.items, p.1.now)) result (arguments_after (reader_of names.now (inside names.now inner)) at few many (expr_of arena.old.exprs first) bs.now) }
    ensures kept { OnOk result (Keeps arena.old arena.new) }
    ensures below { IfOk result (λ p. AllBelow (length arena.new.exprs) p.0.items) }
{
    let mut ids = Vec::new(alloc);
    ids.push(first)?;
    let mut rest = bs;
    let mut needed = few;
    let mut allowed = many;
    let mut fuel = u64::from(many) + 1;
    while fuel > 0 {
        fuel -= 1;
        let (next, behind) = match read_argument(
            alloc, names, arena, inner, at, needed, allowed, rest,
        ) {
            Ok(p) => p,
            Err(e) => return Err(e),
        };
        match next {
            None => return Ok((ids, behind)),
            Some(k) => {
                ids.push(k)?;
                needed = needed.saturating_sub(1);
                allowed = allowed.saturating_sub(1);
                rest = behind;
            }
        }
    }
    Err(ReadError::Met(Fault::Unclosed(0)))
}

// A method's arguments, of which so few are needed and so many may come.
#[cycle(exprs)]
#[tactic(auto, using(crate::proofs::Trees::keeps_all, crate::proofs::Trees::keeps_trans))]
fn read_inside_call<'a>(
    alloc: Global,
    names: &Names,
    arena: &mut Arena,
    inner: u32,
    at: usize,
    few: u32,
    many: u32,
    bs: &'a [u8],
) -> Result<(Vec<usize>, &'a [u8]), ReadError>
    ensures gives { Gives (λ p. (exprs_made (expr_of arena.new.exprs) p.0.items, p.1.now)) result (arguments_in (reader_of names.now (inside names.now inner)) at few many bs.now) }
    ensures kept { OnOk result (Keeps arena.old arena.new) }
    ensures below { IfOk result (λ p. AllBelow (length arena.new.exprs) p.0.items) }
{
    if bs.is_empty() {
        return Err(ReadError::Met(Fault::Unclosed(0)));
    }
    if let [b')', rest @ ..] = bs {
        if few == 0 {
            return Ok((Vec::new(alloc), rest));
        }
        return Err(ReadError::Met(Fault::UnsupportedMethod(at)));
    }
    if many == 0 {
        return Err(ReadError::Met(too_many(at, bs)));
    }
    let (first, rest) = match read_rank(alloc, names, arena, inner, 6, How::Alone, bs) {
        Ok(p) => p,
        Err(e) => return Err(e),
    };
    read_arguments(
        alloc,
        names,
        arena,
        inner,
        at,
        few.saturating_sub(1),
        many - 1,
        first,
        white(rest),
    )
}

// The arguments of the method of this name, which stands at this place, behind its `(`.
#[cycle(exprs)]
#[tactic(auto, using(crate::proofs::Ranks::inside_none, crate::proofs::Ranks::inside_some))]
fn read_call<'a>(
    alloc: Global,
    names: &Names,
    arena: &mut Arena,
    level: u32,
    at: usize,
    name: &[u8],
    bs: &'a [u8],
) -> Result<(Vec<usize>, &'a [u8]), ReadError>
    ensures gives { Gives (λ p. (exprs_made (expr_of arena.new.exprs) p.0.items, p.1.now)) result (arguments (inside names.now level) at (arity_of name.now) bs.now) }
    ensures kept { OnOk result (Keeps arena.old arena.new) }
    ensures below { IfOk result (λ p. AllBelow (length arena.new.exprs) p.0.items) }
{
    let (few, many) = match arity(name) {
        Some(arity) => arity,
        None => return Err(ReadError::Met(Fault::UnsupportedMethod(at))),
    };
    let bracket = bs.len() + 1;
    if level == 0 {
        return Err(ReadError::Met(Fault::TooDeep(bracket)));
    }
    match read_inside_call(alloc, names, arena, level - 1, at, few, many, white(bs)) {
        Ok(p) => Ok(p),
        Err(e) => Err(closed_at(bracket, e)),
    }
}

// Where a dot has no name behind it.
fn bare_dot<'a>(dots: Dots, all: &'a [u8], bs: &[u8]) -> Result<&'a [u8], Fault>
    ensures { MatchResult result (λ rest. at_dot (dots_view dots) all.now bs.now ≡ Ok (last (no_steps, rest.now))) (λ f. at_dot (dots_view dots) all.now bs.now ≡ Err f) }
{
    match (dots, bs) {
        (Dots::Free, _) => Ok(all),
        (Dots::Ranged, [b'.', ..]) => Ok(all),
        _ => Err(bad(bs)),
    }
}

// The step at the front, where there is one.
#[cycle(exprs)]
#[tactic(auto, using(crate::proofs::Trees::keeps_all))]
fn read_step<'a>(
    alloc: Global,
    names: &Names,
    arena: &mut Arena,
    level: u32,
    dots: Dots,
    bs: &'a [u8],
) -> Result<(Option<Step>, &'a [u8]), ReadError>
    ensures gives { Gives (λ p. turn_of no_steps (option_map (step_made (expr_of arena.new.exprs)) p.0) p.1.now) result (step_turn (inside names.now level) (dots_view dots) bs.now) }
    ensures kept { OnOk result (Keeps arena.old arena.new) }
    ensures stands { IfOk result (λ p. IfSome p.0 (StepBelow (length arena.new.exprs))) }
{
    match step_front(bs) {
        StepFront::Nothing => Ok((None, bs)),
        StepFront::Dot(rest) => match bare_dot(dots, bs, rest) {
            Ok(rest) => Ok((None, rest)),
            Err(fault) => Err(ReadError::Met(fault)),
        },
        StepFront::Name(name, rest) => {
            let name = text_of(alloc, name)?;
            Ok((Some(Step::Member(name)), rest))
        }
        StepFront::Call(name, rest) => {
            let at = name.len() + rest.len() + 1;
            let (ids, rest) = match read_call(alloc, names, arena, level, at, name, rest) {
                Ok(p) => p,
                Err(e) => return Err(e),
            };
            let name = text_of(alloc, name)?;
            Ok((Some(Step::Call(name, ids)), rest))
        }
        StepFront::Index(rest) => match read_index(alloc, names, arena, level, rest) {
            Ok((k, rest)) => Ok((Some(Step::Index(k)), rest)),
            Err(e) => Err(e),
        },
    }
}

// The steps at the front.
#[cycle(exprs)]
fn read_steps<'a>(
    alloc: Global,
    names: &Names,
    arena: &mut Arena,
    level: u32,
    dots: Dots,
    bs: &'a [u8],
) -> Result<(Vec<Step>, &'a [u8]), ReadError>
    ensures gives { Gives (λ p. (steps_made (expr_of arena.new.exprs) p.0.items, p.1.now)) result (steps_from (inside names.now level) (dots_view dots) bs.now) }
    ensures kept { OnOk result (Keeps arena.old arena.new) }
    ensures below { IfOk result (λ p. StepsBelow (length arena.new.exprs) p.0.items) }
{
    let mut steps = Vec::new(alloc);
    let mut rest = bs;
    let mut fuel = bs.len() + 1;
    while fuel > 0 {
        fuel -= 1;
        let (next, behind) = match read_step(alloc, names, arena, level, dots, rest) {
            Ok(p) => p,
            Err(e) => return Err(e),
        };
        match next {
            None => return Ok((steps, behind)),
            Some(step) => {
                steps.push(step)?;
                rest = behind;
            }
        }
    }
    Err(ReadError::Met(Fault::Unclosed(0)))
}

/// The steps behind a reference's name, with its closing brace; its `$` stands at this place.
#[cycle(exprs)]
pub fn read_steps_at<'a>(
    alloc: Global,
    names: &Names,
    arena: &mut Arena,
    level: u32,
    dots: Dots,
    braced: bool,
    at: usize,
    bs: &'a [u8],
) -> Result<(Vec<Step>, &'a [u8]), ReadError>
    ensures gives { Gives (λ p. (steps_made (expr_of arena.new.exprs) p.0.items, p.1.now)) result (steps_at (inside names.now level) (dots_view dots) braced at bs.now) }
    ensures kept { OnOk result (Keeps arena.old arena.new) }
    ensures below { IfOk result (λ p. StepsBelow (length arena.new.exprs) p.0.items) }
{
    if !braced {
        return read_steps(alloc, names, arena, level, dots, bs);
    }
    let (steps, rest) = match read_steps(alloc, names, arena, level, dots, bs) {
        Ok(p) => p,
        Err(e) => return Err(closed_at(at, e)),
    };
    match expect(b'}', rest) {
        Ok(rest) => Ok((steps, rest)),
        Err(fault) => Err(closed_at(at, ReadError::Met(fault))),
    }
}

// A reference behind its `$`.
#[cycle(exprs)]
#[tactic(auto, using(crate::proofs::Bad::bad_is, crate::proofs::Trees::keeps_trans))]
fn read_dollar<'a>(
    alloc: Global,
    names: &Names,
    arena: &mut Arena,
    level: u32,
    how: How,
    bs: &'a [u8],
) -> Result<(usize, &'a [u8]), ReadError>
    ensures gives { Gives (λ p. (expr_of arena.new.exprs p.0, p.1.now)) result (dollar (inside names.now level) (how_of how) bs.now (begun bs.now)) }
    ensures kept { OnOk result (Keeps arena.old arena.new) }
    ensures stands { IfOk result (λ p. p.0 < length arena.new.exprs) }
{
    let (braced, name, rest) = match begun_at(bs) {
        Begun::Nameless(missing) => return Err(ReadError::Met(bad(missing))),
        Begun::Reference {
            quiet: _,
            braced,
            name,
            rest,
        } => (braced, name, rest),
    };
    let (steps, rest) = match read_steps_at(
        alloc,
        names,
        arena,
        level,
        dots_in(how, braced),
        braced,
        bs.len() + 1,
        rest,
    ) {
        Ok(p) => p,
        Err(e) => return Err(e),
    };
    let name = text_of(alloc, name)?;
    let k = arena.add_expr(ExprNode::Reference(name, steps))?;
    Ok((k, rest))
}

// The part at the front of a double-quoted string's inside, where there is one.
#[cycle(exprs)]
#[tactic(auto, using(crate::proofs::Trees::keeps_all))]
fn read_part<'a>(
    alloc: Global,
    names: &Names,
    arena: &mut Arena,
    level: u32,
    bs: &'a [u8],
) -> Result<(Option<Part>, &'a [u8]), ReadError>
    ensures gives { Gives (λ p. turn_of no_parts (option_map (part_made (expr_of arena.new.exprs)) p.0) p.1.now) result (part_turn names.now (inside names.now level) bs.now) }
    ensures kept { OnOk result (Keeps arena.old arena.new) }
    ensures stands { IfOk result (λ p. IfSome p.0 (PartBelow (length arena.new.exprs))) }
{
    let n = run_len(names, bs);
    if n > 0 {
        let text = text_of(alloc, &bs[..n])?;
        return Ok((Some(Part::Bytes(text)), &bs[n..]));
    }
    match piece_at(names, bs) {
        Piece::End | Piece::Byte => Ok((None, &[])),
        Piece::Bad(fault) => Err(ReadError::Met(fault)),
        Piece::Reference {
            quiet,
            braced,
            name,
            rest,
        } => {
            let (steps, rest) = match read_steps_at(
                alloc,
                names,
                arena,
                level,
                dots_out(braced),
                braced,
                bs.len(),
                rest,
            ) {
                Ok(p) => p,
                Err(e) => return Err(e),
            };
            let source = source_of(alloc, quiet, bs, rest)?;
            let name = text_of(alloc, name)?;
            Ok((Some(Part::Printed(source, name, steps)), rest))
        }
    }
}

// The parts of a double-quoted string's inside.
#[cycle(exprs)]
fn read_parts<'a>(
    alloc: Global,
    names: &Names,
    arena: &mut Arena,
    level: u32,
    bs: &'a [u8],
) -> Result<(Vec<Part>, &'a [u8]), ReadError>
    ensures gives { Gives (λ p. (parts_made (expr_of arena.new.exprs) p.0.items, p.1.now)) result (parts_of names.now (inside names.now level) bs.now) }
    ensures kept { OnOk result (Keeps arena.old arena.new) }
    ensures below { IfOk result (λ p. PartsBelow (length arena.new.exprs) p.0.items) }
{
    let mut parts = Vec::new(alloc);
    let mut rest = bs;
    let mut fuel = bs.len() + 1;
    while fuel > 0 {
        fuel -= 1;
        let (next, behind) = match read_part(alloc, names, arena, level, rest) {
            Ok(p) => p,
            Err(e) => return Err(e),
        };
        match next {
            None => return Ok((parts, behind)),
            Some(part) => {
                parts.push(part)?;
                rest = behind;
            }
        }
    }
    Err(ReadError::Met(Fault::Unclosed(0)))
}

// A string behind its `"`.
#[cycle(exprs)]
#[tactic(auto, using(crate::proofs::Trees::keeps_trans))]
fn read_double<'a>(
    alloc: Global,
    names: &Names,
    arena: &mut Arena,
    level: u32,
    bs: &'a [u8],
) -> Result<(usize, &'a [u8]), ReadError>
    ensures gives { Gives (λ p. (expr_of arena.new.exprs p.0, p.1.now)) result (double_quoted names.now (inside names.now level) bs.now) }
    ensures kept { OnOk result (Keeps arena.old arena.new) }
    ensures stands { IfOk result (λ p. p.0 < length arena.new.exprs) }
{
    match until_byte(b'"', bs) {
        Some((text, rest)) => {
            let (parts, _) = match read_parts(alloc, names, arena, level, text) {
                Ok(p) => p,
                Err(e) => return Err(moved_by(rest.len() + 1, e)),
            };
            let k = arena.add_expr(ExprNode::Joined(parts))?;
            Ok((k, rest))
        }
        None => match read_parts(alloc, names, arena, level, bs) {
            Ok(_) => Err(ReadError::Met(Fault::Unclosed(bs.len() + 1))),
            Err(e) => Err(closed_at(bs.len() + 1, e)),
        },
    }
}

// An expression without binary operators of its own.
#[cycle(exprs)]
#[tactic(auto, using(crate::proofs::Bad::bad_is), unfolding(vtl_grammar::specs::Expressions::operand))]
fn read_operand<'a>(
    alloc: Global,
    names: &Names,
    arena: &mut Arena,
    level: u32,
    how: How,
    bs: &'a [u8],
) -> Result<(usize, &'a [u8]), ReadError>
    ensures gives { Gives (λ p. (expr_of arena.new.exprs p.0, p.1.now)) result (operand names.now (inside names.now level) (how_of how) bs.now) }
    ensures kept { OnOk result (Keeps arena.old arena.new) }
    ensures stands { IfOk result (λ p. p.0 < length arena.new.exprs) }
{
    let all = white(bs);
    let [b, rest @ ..] = all else {
        return Err(ReadError::Met(Fault::Unclosed(0)));
    };
    match lead_of(*b) {
        Lead::Exclamation => read_negation(alloc, names, arena, level, how, all.len(), rest),
        Lead::Not => match whole_word(b"not", all) {
            Some(rest) => read_negation(alloc, names, arena, level, how, all.len(), rest),
            None => Err(ReadError::Met(bad_not(all))),
        },
        Lead::Dollar => read_dollar(alloc, names, arena, level, how, rest),
        Lead::Minus => match minus_number(how, rest) {
            Ok((z, rest)) => {
                let k = arena.add_expr(ExprNode::Whole(z))?;
                Ok((k, rest))
            }
            Err(fault) => Err(ReadError::Met(fault)),
        },
        Lead::Digit => match number(how, all.len(), false, all) {
            Ok((z, rest)) => {
                let k = arena.add_expr(ExprNode::Whole(z))?;
                Ok((k, rest))
            }
            Err(fault) => Err(ReadError::Met(fault)),
        },
        Lead::Quote => read_single(alloc, arena, rest),
        Lead::DoubleQuote => read_double(alloc, names, arena, level, rest),
        Lead::Boolean => match boolean(all) {
            Ok((b, rest)) => {
                let k = arena.add_expr(ExprNode::Boolean(b))?;
                Ok((k, rest))
            }
            Err(fault) => Err(ReadError::Met(fault)),
        },
        Lead::Round => read_round(alloc, names, arena, level, rest),
        Lead::Square => read_square(alloc, names, arena, level, rest),
        Lead::Brace => read_brace(alloc, names, arena, level, rest),
        Lead::Nothing => Err(ReadError::Met(Fault::BadExpression(all.len()))),
    }
}
