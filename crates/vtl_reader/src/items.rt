// Reads items, and the blocks of directives.
ghost use Rattle.std.specs.Prelude.{◌≡◌, ◌+◌, ◌<◌, ◌++◌, [], length, map, None, Ok, IfOk, IfErr, OnOk, if◌then◌else◌};
ghost use Rattle.vtl_grammar.specs.Tree.{otherwise};
ghost use Rattle.vtl_grammar.specs.Faults.{within};
ghost use Rattle.vtl_grammar.specs.Words.{Macro as macro_word};
ghost use Rattle.vtl_grammar.specs.Lines.{lines};
ghost use Rattle.vtl_grammar.specs.Items.{items as items_spec, item_turn as item_turn_spec, item_at as item_at_spec, directive_turn, at_end as at_end_of, at_else as at_else_of, at_elseif as at_elseif_of, at_macro, set_turn, reference_turn, if_inside as if_inside_of, foreach_inside as foreach_inside_of, macro_inside as macro_inside_of, body, branch_turn as branch_turn_spec, branches as branches_spec, below, text_item};
ghost use Rattle.vtl_words.specs.Views.{word_of};
ghost use Rattle.vtl_words.specs.Fronts.{front_view};
ghost use Rattle.vtl_reader.specs.Nodes.{expr_of, item_of, items_made, branches_made, AllBelow, BranchesBelow, Keeps};
ghost use Rattle.vtl_reader.specs.Blocks.{around_of, stop_of, item_turn_of, branch_turn_of, place_of, IsFresh, StopStands, TurnStands, BranchStands};
ghost use Rattle.vtl_reader.specs.Views.{Gives};

use crate::arena::Arena;
use crate::blocks::{Around, BranchTurn, ItemTurn, Place, Stop};
use crate::calls::call_at;
use crate::error::{ReadError, closed_at, text_of};
use crate::exprs::{read_steps_at, source_of};
use crate::heads::{condition, foreach_at, macro_at, set_at};
use crate::nodes::{Branch, ItemNode};
use crate::text::text_run;
use std::alloc::Global;
use vtl_grammar::Fault;
use vtl_words::fronts::Front;
use vtl_words::lines::{cut, end_directive};
use vtl_words::names::Names;
use vtl_words::references::dots_out;
use vtl_words::words::Word;

// Adds the gathered text to the items, where there is any.
fn flush(
    alloc: Global,
    arena: &mut Arena,
    ids: &mut Vec<usize>,
    text: &[u8],
) -> Result<(), ReadError>
    requires below { AllBelow (length arena.old.items) ids.old.items }
    ensures items { OnOk result (map (item_of arena.new) ids.new.items ≡ map (item_of arena.old) ids.old.items ++ text_item text.now) }
    ensures below { OnOk result (AllBelow (length arena.new.items) ids.new.items) }
    ensures kept { OnOk result (Keeps arena.old arena.new) }
    ensures err { IfErr result (λ e. e ≡ ReadError.Memory) }
{
    if text.is_empty() {
        return Ok(());
    }
    let text = text_of(alloc, text)?;
    let k = arena.add_item(ItemNode::Text(text))?;
    ids.push(k)?;
    Ok(())
}

// A reference in text.
fn read_output<'a>(
    alloc: Global,
    names: &Names,
    arena: &mut Arena,
    level: u32,
    around: &Around<'_>,
    defined: &Names,
    text: &mut Vec<u8>,
    all: &'a [u8],
    quiet: bool,
    braced: bool,
    name: &[u8],
    bs: &'a [u8],
) -> Result<ItemTurn<'a>, ReadError>
    ensures gives { Gives (λ t. item_turn_of arena.new text.new.items (around_of defined.now around.now) t) result (reference_turn (below names.now level) (around_of defined.now around.now) text.old.items all.now quiet braced name.now bs.now) }
    ensures kept { OnOk result (Keeps arena.old arena.new) }
    ensures stands { IfOk result (λ t. TurnStands arena.new t) }
{
    let (steps, rest) = match read_steps_at(
        alloc,
        names,
        arena,
        level,
        dots_out(braced),
        braced,
        all.len(),
        bs,
    ) {
        Ok(p) => p,
        Err(e) => return Err(e),
    };
    let source = source_of(alloc, quiet, all, rest)?;
    let name = text_of(alloc, name)?;
    let k = arena.add_item(ItemNode::Output(source, name, steps))?;
    Ok(ItemTurn::Item(k, None, rest))
}

// A `#set`.
fn read_set<'a>(
    alloc: Global,
    names: &Names,
    arena: &mut Arena,
    level: u32,
    around: &Around<'_>,
    defined: &Names,
    text: &mut Vec<u8>,
    line: Option<usize>,
    at: usize,
    bs: &'a [u8],
) -> Result<ItemTurn<'a>, ReadError>
    ensures gives { Gives (λ t. item_turn_of arena.new text.new.items (around_of defined.now around.now) t) result (set_turn (below names.now level) (around_of defined.now around.now) at line text.old.items bs.now) }
    ensures kept { OnOk result (Keeps arena.old arena.new) }
    ensures stands { IfOk result (λ t. TurnStands arena.new t) }
{
    let (target, value, rest) = match set_at(alloc, names, arena, level, at, around.params, bs) {
        Ok(p) => p,
        Err(e) => return Err(e),
    };
    let k = arena.add_item(ItemNode::Set(target, value))?;
    let (line, rest) = end_directive(line, text, rest);
    Ok(ItemTurn::Item(k, line, rest))
}

// An `#elseif`.
fn read_elseif<'a>(
    alloc: Global,
    names: &Names,
    arena: &mut Arena,
    level: u32,
    around: &Around<'_>,
    defined: &Names,
    text: &mut Vec<u8>,
    line: Option<usize>,
    at: usize,
    bs: &'a [u8],
) -> Result<ItemTurn<'a>, ReadError>
    ensures gives { Gives (λ t. item_turn_of arena.new text.new.items (around_of defined.now around.now) t) result (at_elseif_of (below names.now level) (place_of defined.now around.now.place) at line text.old.items bs.now) }
    ensures kept { OnOk result (Keeps arena.old arena.new) }
    ensures stands { IfOk result (λ t. TurnStands arena.new t) }
{
    if around.place != Place::Branch {
        return Err(ReadError::Met(Fault::BadDirective(at)));
    }
    let (k, rest) = match condition(alloc, names, arena, level, at, bs) {
        Ok(p) => p,
        Err(e) => return Err(e),
    };
    let (line, rest) = end_directive(line, text, rest);
    Ok(ItemTurn::End(Stop::ElseIf(k, line, rest)))
}

// An `#else` or an `#end`.
fn read_stop<'a>(
    arena: &Arena,
    around: &Around<'_>,
    defined: &Names,
    text: &mut Vec<u8>,
    line: Option<usize>,
    at: usize,
    is_else: bool,
    bs: &'a [u8],
) -> Result<ItemTurn<'a>, ReadError>
    ensures gives { Gives (λ t. item_turn_of arena.now text.new.items (around_of defined.now around.now) t) result (if is_else then at_else_of (place_of defined.now around.now.place) at (lines line text.old.items bs.now) else at_end_of (place_of defined.now around.now.place) at (lines line text.old.items bs.now)) }
    ensures stands { IfOk result (λ t. TurnStands arena.now t) }
{
    if around.place == Place::Top || (is_else && around.place == Place::Body) {
        return Err(ReadError::Met(Fault::BadDirective(at)));
    }
    let (line, rest) = end_directive(line, text, bs);
    Ok(ItemTurn::End(if is_else {
        Stop::Else(line, rest)
    } else {
        Stop::End(line, rest)
    }))
}

// A macro's call.
fn read_macro_call<'a>(
    alloc: Global,
    names: &Names,
    arena: &mut Arena,
    level: u32,
    around: &Around<'_>,
    defined: &Names,
    text: &mut Vec<u8>,
    at: usize,
    name: &[u8],
    bs: &'a [u8],
) -> Result<ItemTurn<'a>, ReadError>
    ensures gives { Gives (λ t. item_turn_of arena.new text.new.items (around_of defined.now around.now) t) result (directive_turn (below names.now level) (around_of defined.now around.now) text.old.items None at (macro_word name.now) bs.now) }
    ensures kept { OnOk result (Keeps arena.old arena.new) }
    ensures stands { IfOk result (λ t. TurnStands arena.new t) }
{
    let (ids, rest) = match call_at(alloc, names, arena, level, at, bs) {
        Ok(p) => p,
        Err(e) => return Err(e),
    };
    let name = text_of(alloc, name)?;
    let k = arena.add_item(ItemNode::MacroCall(at, name, ids))?;
    Ok(ItemTurn::Item(k, None, rest))
}

// The items of a block that `#end` alone ends, and what follows it.
#[cycle(items)]
fn read_block<'a>(
    alloc: Global,
    names: &Names,
    arena: &mut Arena,
    level: u32,
    around: &Around<'_>,
    line: Option<usize>,
    bs: &'a [u8],
) -> Result<(Vec<usize>, Option<usize>, &'a [u8]), ReadError>
    requires line { IsFresh line }
    ensures gives { Gives (λ p. (items_made (item_of arena.new) p.0.items, (p.1, p.2.now))) result (body (items_spec (below names.now level)) (around_of [] around.now) (line, bs.now)) }
    ensures kept { OnOk result (Keeps arena.old arena.new) }
    ensures below { IfOk result (λ p. AllBelow (length arena.new.items) p.0.items) }
    ensures line { IfOk result (λ p. IsFresh p.1) }
{
    let (ids, stop) = match read_items(alloc, names, arena, level, around, line, bs) {
        Ok(p) => p,
        Err(e) => return Err(e),
    };
    match stop {
        Stop::End(line, rest) => Ok((ids, line, rest)),
        Stop::Finish | Stop::Else(_, _) | Stop::ElseIf(_, _, _) => Err(ReadError::Met(
            Fault::Unclosed(0),
        )),
    }
}

// A branch of an `#if` behind its condition.
#[cycle(items)]
fn read_branch<'a>(
    alloc: Global,
    names: &Names,
    arena: &mut Arena,
    level: u32,
    around: &Around<'_>,
    condition: usize,
    line: Option<usize>,
    bs: &'a [u8],
) -> Result<BranchTurn<'a>, ReadError>
    requires stands { condition < length arena.old.exprs }
    requires line { IsFresh line }
    ensures gives { Gives (λ t. branch_turn_of arena.new t) result (branch_turn_spec (items_spec (below names.now level)) (around_of [] around.now) (expr_of arena.old.exprs condition, (line, bs.now))) }
    ensures kept { OnOk result (Keeps arena.old arena.new) }
    ensures stands { IfOk result (λ t. BranchStands arena.new t) }
{
    let (items, stop) = match read_items(alloc, names, arena, level, around, line, bs) {
        Ok(p) => p,
        Err(e) => return Err(e),
    };
    let branch = Branch { condition, items };
    match stop {
        Stop::Finish => Err(ReadError::Met(Fault::Unclosed(0))),
        Stop::End(line, rest) => Ok(BranchTurn::Last(branch, Vec::new(alloc), line, rest)),
        Stop::ElseIf(next, line, rest) => Ok(BranchTurn::More(branch, next, line, rest)),
        Stop::Else(line, rest) => {
            let otherwise = Around {
                place: Place::Body,
                looping: around.looping,
                params: around.params,
            };
            match read_block(alloc, names, arena, level, &otherwise, line, rest) {
                Ok((ids, line, rest)) => Ok(BranchTurn::Last(branch, ids, line, rest)),
                Err(e) => Err(e),
            }
        }
    }
}

// The branches of an `#if` behind its first condition, what stands behind its `#else`, and what follows its `#end`.
#[cycle(items)]
fn read_branches<'a>(
    alloc: Global,
    names: &Names,
    arena: &mut Arena,
    level: u32,
    around: &Around<'_>,
    most: usize,
    first: usize,
    start: Option<usize>,
    bs: &'a [u8],
) -> Result<(Vec<Branch>, Vec<usize>, Option<usize>, &'a [u8]), ReadError>
    requires stands { first < length arena.old.exprs }
    requires line { IsFresh start }
    ensures gives { Gives (λ p. (branches_made (expr_of arena.new.exprs) (item_of arena.new) p.0.items (items_made (item_of arena.new) p.1.items), (p.2, p.3.now))) result (branches_spec (items_spec (below names.now level)) (around_of [] around.now) most (expr_of arena.old.exprs first, (start, bs.now))) }
    ensures kept { OnOk result (Keeps arena.old arena.new) }
    ensures below { IfOk result (λ p. BranchesBelow (length arena.new.exprs) (length arena.new.items) p.0.items × AllBelow (length arena.new.items) p.1.items) }
    ensures line { IfOk result (λ p. IsFresh p.2) }
{
    let mut branches = Vec::new(alloc);
    let mut condition = first;
    let mut line = start;
    let mut rest = bs;
    let mut fuel = most;
    while fuel > 0 {
        fuel -= 1;
        let turn = match read_branch(alloc, names, arena, level, around, condition, line, rest) {
            Ok(turn) => turn,
            Err(e) => return Err(e),
        };
        match turn {
            BranchTurn::Last(branch, otherwise, line, rest) => {
                branches.push(branch)?;
                return Ok((branches, otherwise, line, rest));
            }
            BranchTurn::More(branch, next, behind, more) => {
                branches.push(branch)?;
                condition = next;
                line = behind;
                rest = more;
            }
        }
    }
    Err(ReadError::Met(Fault::Unclosed(0)))
}

// An `#if`, from its condition to its `#end`.
#[cycle(items)]
#[tactic(auto, using(crate::proofs::Ranks::blocks_none, crate::proofs::Ranks::blocks_some, crate::proofs::Trees::keeps_trans))]
fn read_if<'a>(
    alloc: Global,
    names: &Names,
    arena: &mut Arena,
    level: u32,
    around: &Around<'_>,
    defined: &Names,
    text: &mut Vec<u8>,
    line: Option<usize>,
    at: usize,
    bs: &'a [u8],
) -> Result<ItemTurn<'a>, ReadError>
    ensures gives { Gives (λ t. item_turn_of arena.new text.new.items (around_of defined.now around.now) t) result (if_inside_of (below names.now level) (around_of defined.now around.now) at line text.old.items bs.now) }
    ensures kept { OnOk result (Keeps arena.old arena.new) }
    ensures stands { IfOk result (λ t. TurnStands arena.new t) }
{
    let (first, rest) = match condition(alloc, names, arena, level, at, bs) {
        Ok(p) => p,
        Err(e) => return Err(e),
    };
    let (line, rest) = end_directive(line, text, rest);
    if level == 0 {
        return Err(ReadError::Met(Fault::TooDeep(at)));
    }
    let inside = Around {
        place: Place::Branch,
        looping: around.looping,
        params: around.params,
    };
    let (branches, otherwise, line, rest) = match read_branches(
        alloc,
        names,
        arena,
        level - 1,
        &inside,
        bs.len() + 1,
        first,
        line,
        rest,
    ) {
        Ok(p) => p,
        Err(e) => return Err(e),
    };
    let k = arena.add_item(ItemNode::If(branches, otherwise))?;
    Ok(ItemTurn::Item(k, line, rest))
}

// A `#foreach`, from its head to its `#end`.
#[cycle(items)]
#[tactic(auto, using(crate::proofs::Ranks::blocks_none, crate::proofs::Ranks::blocks_some, crate::proofs::Trees::keeps_trans))]
fn read_foreach<'a>(
    alloc: Global,
    names: &Names,
    arena: &mut Arena,
    level: u32,
    around: &Around<'_>,
    defined: &Names,
    text: &mut Vec<u8>,
    line: Option<usize>,
    at: usize,
    bs: &'a [u8],
) -> Result<ItemTurn<'a>, ReadError>
    ensures gives { Gives (λ t. item_turn_of arena.new text.new.items (around_of defined.now around.now) t) result (foreach_inside_of (below names.now level) (around_of defined.now around.now) at line text.old.items bs.now) }
    ensures kept { OnOk result (Keeps arena.old arena.new) }
    ensures stands { IfOk result (λ t. TurnStands arena.new t) }
{
    let (name, list, rest) = match foreach_at(alloc, names, arena, level, at, around.params, bs) {
        Ok(p) => p,
        Err(e) => return Err(e),
    };
    let (line, rest) = end_directive(line, text, rest);
    if level == 0 {
        return Err(ReadError::Met(Fault::TooDeep(at)));
    }
    let inside = Around {
        place: Place::Body,
        looping: true,
        params: around.params,
    };
    let (ids, line, rest) = match read_block(alloc, names, arena, level - 1, &inside, line, rest) {
        Ok(p) => p,
        Err(e) => return Err(e),
    };
    let k = arena.add_item(ItemNode::ForEach(name, list, ids))?;
    Ok(ItemTurn::Item(k, line, rest))
}

// A `#macro`, from its head to its `#end`, which joins those that are defined.
#[cycle(items)]
#[tactic(auto, using(crate::proofs::Ranks::blocks_none, crate::proofs::Ranks::blocks_some, crate::proofs::Trees::keeps_trans))]
fn read_macro<'a>(
    alloc: Global,
    names: &Names,
    arena: &mut Arena,
    level: u32,
    around: &Around<'_>,
    defined: &mut Names,
    text: &mut Vec<u8>,
    line: Option<usize>,
    at: usize,
    bs: &'a [u8],
) -> Result<ItemTurn<'a>, ReadError>
    requires top { around.now.place ≡ Place.Top }
    ensures gives { Gives (λ t. item_turn_of arena.new text.new.items (around_of defined.new around.now) t) result (macro_inside_of (below names.now level) defined.old (around_of defined.old around.now) at line text.old.items bs.now) }
    ensures kept { OnOk result (Keeps arena.old arena.new) }
    ensures stands { IfOk result (λ t. TurnStands arena.new t) }
{
    let (name, params, rest) = match macro_at(alloc, at, defined, bs) {
        Ok(p) => p,
        Err(e) => return Err(e),
    };
    let (line, rest) = end_directive(line, text, rest);
    if level == 0 {
        return Err(ReadError::Met(Fault::TooDeep(at)));
    }
    let inside = Around {
        place: Place::Body,
        looping: false,
        params: &params,
    };
    let (ids, line, rest) = match read_block(alloc, names, arena, level - 1, &inside, line, rest) {
        Ok(p) => p,
        Err(e) => return Err(e),
    };
    defined.push(alloc, name.as_str().as_bytes())?;
    let k = arena.add_item(ItemNode::Define(name, params, ids))?;
    Ok(ItemTurn::Item(k, line, rest))
}

// A directive behind its word, whose `#` stands at this place.
#[cycle(items)]
fn read_directive<'a>(
    alloc: Global,
    names: &Names,
    arena: &mut Arena,
    level: u32,
    around: &Around<'_>,
    defined: &mut Names,
    text: &mut Vec<u8>,
    line: Option<usize>,
    at: usize,
    word: Word<'a>,
    bs: &'a [u8],
) -> Result<ItemTurn<'a>, ReadError>
    ensures gives { Gives (λ t. item_turn_of arena.new text.new.items (around_of defined.new around.now) t) result (directive_turn (below names.now level) (around_of defined.old around.now) text.old.items line at (word_of word.entry) bs.now) }
    ensures kept { OnOk result (Keeps arena.old arena.new) }
    ensures stands { IfOk result (λ t. TurnStands arena.new t) }
{
    match word {
        Word::Refused => Err(ReadError::Met(Fault::BadDirective(at))),
        Word::Else => read_stop(arena, around, defined, text, line, at, true, bs),
        Word::End => read_stop(arena, around, defined, text, line, at, false, bs),
        Word::ElseIf => read_elseif(
            alloc, names, arena, level, around, defined, text, line, at, bs,
        ),
        Word::Break => {
            if !around.looping {
                return Err(ReadError::Met(Fault::BadDirective(at)));
            }
            let k = arena.add_item(ItemNode::Break)?;
            let (line, rest) = end_directive(line, text, bs);
            Ok(ItemTurn::Item(k, line, rest))
        }
        Word::Stop => {
            let k = arena.add_item(ItemNode::Stop)?;
            let (line, rest) = end_directive(line, text, bs);
            Ok(ItemTurn::Item(k, line, rest))
        }
        Word::Set => read_set(
            alloc, names, arena, level, around, defined, text, line, at, bs,
        ),
        Word::If => match read_if(
            alloc, names, arena, level, around, defined, text, line, at, bs,
        ) {
            Ok(turn) => Ok(turn),
            Err(e) => Err(closed_at(at, e)),
        },
        Word::ForEach => match read_foreach(
            alloc, names, arena, level, around, defined, text, line, at, bs,
        ) {
            Ok(turn) => Ok(turn),
            Err(e) => Err(closed_at(at, e)),
        },
        Word::Define => {
            if around.place != Place::Top {
                return Err(ReadError::Met(Fault::BadDirective(at)));
            }
            match read_macro(
                alloc, names, arena, level, around, defined, text, line, at, bs,
            ) {
                Ok(turn) => Ok(turn),
                Err(e) => Err(closed_at(at, e)),
            }
        }
        Word::Macro(name) => read_macro_call(
            alloc, names, arena, level, around, defined, text, at, name, bs,
        ),
    }
}

// The item behind the text, at whose front this stands.
#[cycle(items)]
fn read_item<'a>(
    alloc: Global,
    names: &Names,
    arena: &mut Arena,
    level: u32,
    around: &Around<'_>,
    defined: &mut Names,
    text: &mut Vec<u8>,
    line: Option<usize>,
    front: Front<'a>,
    bs: &'a [u8],
) -> Result<ItemTurn<'a>, ReadError>
    ensures gives { Gives (λ t. item_turn_of arena.new text.new.items (around_of defined.new around.now) t) result (item_at_spec (below names.now level) (around_of defined.old around.now) text.old.items line bs.now (front_view front.entry)) }
    ensures kept { OnOk result (Keeps arena.old arena.new) }
    ensures stands { IfOk result (λ t. TurnStands arena.new t) }
{
    match front {
        Front::Finish => match around.place {
            Place::Top => Ok(ItemTurn::End(Stop::Finish)),
            Place::Branch | Place::Body => Err(ReadError::Met(Fault::Unclosed(0))),
        },
        Front::Plain(_, _) | Front::Raw(_, _) => Err(ReadError::Met(Fault::Unclosed(0))),
        Front::Unclosed => Err(ReadError::Met(Fault::Unclosed(bs.len()))),
        Front::Escape => Err(ReadError::Met(Fault::Escape(bs.len()))),
        Front::Reference {
            quiet,
            braced,
            name,
            rest,
        } => read_output(
            alloc, names, arena, level, around, defined, text, bs, quiet, braced, name, rest,
        ),
        Front::LineComment(rest) => {
            let k = arena.add_item(ItemNode::Comment)?;
            cut(line, text);
            Ok(ItemTurn::Item(k, Some(0), rest))
        }
        Front::LongComment(rest) => {
            let k = arena.add_item(ItemNode::Comment)?;
            Ok(ItemTurn::Item(k, None, rest))
        }
        Front::Directive(word, rest) => read_directive(
            alloc,
            names,
            arena,
            level,
            around,
            defined,
            text,
            line,
            bs.len(),
            word,
            rest,
        ),
    }
}

// The text at the front, and the item behind it.
#[cycle(items)]
fn read_turn<'a>(
    alloc: Global,
    names: &Names,
    arena: &mut Arena,
    level: u32,
    around: &Around<'_>,
    defined: &mut Names,
    text: &mut Vec<u8>,
    line: Option<usize>,
    bs: &'a [u8],
) -> Result<ItemTurn<'a>, ReadError>
    requires line { IsFresh line }
    requires text { text.old.items ≡ [] }
    ensures gives { Gives (λ t. item_turn_of arena.new text.new.items (around_of defined.new around.now) t) result (item_turn_spec (below names.now level) (around_of defined.old around.now, (line, bs.now))) }
    ensures kept { OnOk result (Keeps arena.old arena.new) }
    ensures stands { IfOk result (λ t. TurnStands arena.new t) }
{
    let (line, rest, front) = match text_run(names, text, line, bs) {
        Ok(p) => p,
        Err(e) => return Err(e),
    };
    read_item(
        alloc, names, arena, level, around, defined, text, line, front, rest,
    )
}

/// A run of items, inside which so many levels may open, and what ends it.
#[cycle(items)]
pub fn read_items<'a>(
    alloc: Global,
    names: &Names,
    arena: &mut Arena,
    level: u32,
    around: &Around<'_>,
    start: Option<usize>,
    bs: &'a [u8],
) -> Result<(Vec<usize>, Stop<'a>), ReadError>
    requires line { IsFresh start }
    ensures gives { Gives (λ p. (items_made (item_of arena.new) p.0.items, stop_of arena.new p.1)) result (items_spec (below names.now level) (around_of [] around.now) (start, bs.now)) }
    ensures kept { OnOk result (Keeps arena.old arena.new) }
    ensures below { IfOk result (λ p. AllBelow (length arena.new.items) p.0.items) }
    ensures stop { IfOk result (λ p. StopStands arena.new p.1) }
{
    let mut ids = Vec::new(alloc);
    let mut defined = Names::new(alloc);
    let mut line = start;
    let mut rest = bs;
    let mut fuel = bs.len() + 1;
    while fuel > 0 {
        fuel -= 1;
        let mut text = Vec::new(alloc);
        let turn = match read_turn(
            alloc,
            names,
            arena,
            level,
            around,
            &mut defined,
            &mut text,
            line,
            rest,
        ) {
            Ok(turn) => turn,
            Err(e) => return Err(e),
        };
        match flush(alloc, arena, &mut ids, &text) {
            Ok(()) => {}
            Err(e) => return Err(e),
        }
        match turn {
            ItemTurn::End(stop) => return Ok((ids, stop)),
            ItemTurn::Item(k, behind, more) => {
                ids.push(k)?;
                line = behind;
                rest = more;
            }
        }
    }
    Err(ReadError::Met(Fault::Unclosed(0)))
}
