// The macros of a template by name, and the calls that have none.
ghost use Rattle.std.specs.Prelude.{◌≡◌, ◌≤◌, ◌<◌, ℕ, List, length, Some, None, IfOk, OnOk, IfSome, MatchOption};
ghost use Rattle.vtl_grammar.specs.Calls.{first_of, defined_as, macros_in, wrong_of as wrong_of_spec, wrong_call as wrong_call_spec, wrong_calls as wrong_calls_spec};
ghost use Rattle.vtl_words.specs.Names.{place_of};
ghost use Rattle.vtl_reader.specs.Nodes.{item_of, items_made, AllBelow, BranchesBelow};
ghost use Rattle.vtl_reader.specs.Macros.{defines, found_in, macros_by, wrong_heads, AreListed};

use crate::arena::Arena;
use crate::nodes::{Branch, ItemNode};
use gw_base::Memory;
use std::alloc::Global;
use std::marker::Model;
use vtl_words::names::Names;

/// The macros of a template: their names, and the numbers of the items that define them.
#[derive(Drop)]
pub struct Macros {
    names: Names,
    ids: Vec<usize>,
}

impl Model for Macros {
    ghost use Rattle.vtl_reader.specs.Macros.{Listed};

    ghost Value = { Listed };

    ghost view = { λ m. record { names = m.names; ids = m.ids.items } };
}

impl Macros {
    /// The place of the macro of this name among them.
    pub fn place(&self, name: &[u8]) -> Option<usize>
        ensures { result ≡ place_of self.now.names name.now }
    {
        self.names.place(name)
    }

    /// The numbers of the items that define them.
    pub fn ids(&self) -> &[usize]
        ensures { result.now ≡ self.now.ids }
    {
        self.ids.as_slice()
    }

    /// The number of the item that defines the macro of this name.
    pub fn find(&self, name: &[u8]) -> Option<usize>
        ensures { result ≡ found_in self.now name.now }
    {
        let n = self.names.place(name)?;
        self.ids.get(n).copied()
    }
}

// The macros that are listed, with the one that this item defines, if it does.
#[tactic(auto, using(crate::proofs::Listing::none_more))]
fn list_macro(
    alloc: Global,
    arena: &Arena,
    names: &mut Names,
    ids: &mut Vec<usize>,
    k: usize,
) -> Result<(), Memory>
    requires stands { k < length arena.now.items }
    requires listed { AreListed arena.now names.old ids.old.items }
    ensures macros { OnOk result ((x : List ℕ) → macros_by arena.now (record { names = names.new; ids = ids.new.items }) x ≡ first_of (macros_by arena.now (record { names = names.old; ids = ids.old.items }) x) (defined_as x (item_of arena.now k))) }
    ensures listed { OnOk result (AreListed arena.now names.new ids.new.items) }
{
    if let ItemNode::Define(name, _, _) = arena.item(k) {
        names.push(alloc, name.as_str().as_bytes())?;
        ids.push(k)?;
    }
    Ok(())
}

/// The macros that items of the top level define.
pub fn macros_of(alloc: Global, arena: &Arena, items: &[usize]) -> Result<Macros, Memory>
    requires below { AllBelow (length arena.now.items) items.now }
    ensures macros { IfOk result (λ m. (x : List ℕ) → macros_by arena.now m x ≡ macros_in (items_made (item_of arena.now) items.now) x) }
    ensures defined { IfOk result (λ m. AllBelow (length arena.now.items) m.ids) }
{
    let mut names = Names::new(alloc);
    let mut ids = Vec::new(alloc);
    for k in items {
        list_macro(alloc, arena, &mut names, &mut ids, *k)?;
    }
    Ok(Macros { names, ids })
}

/// The parameters and the body of the macro that this item defines, if it does.
pub fn macro_of(arena: &Arena, k: usize) -> Option<(&Names, &[usize])>
    requires stands { k < length arena.now.items }
    ensures found { MatchOption result (defines (item_of arena.now k) ≡ None) (λ p. defines (item_of arena.now k) ≡ Some (record { params = p.0.now; body = items_made (item_of arena.now) p.1.now })) }
    ensures below { IfSome result (λ p. AllBelow (length arena.now.items) p.1.now) }
{
    match arena.item(k) {
        ItemNode::Define(_, params, body) => Some((params, body.as_slice())),
        _ => None,
    }
}

/// The parameters and the body of the macro of this name.
#[tactic(auto, using(crate::proofs::Listing::found_below))]
pub fn macro_named<'a>(
    arena: &'a Arena,
    macros: &Macros,
    name: &[u8],
) -> Option<(&'a Names, &'a [usize])>
    requires defined { AllBelow (length arena.now.items) macros.now.ids }
    ensures found { MatchOption result (macros_by arena.now macros.now name.now ≡ None) (λ p. macros_by arena.now macros.now name.now ≡ Some (record { params = p.0.now; body = items_made (item_of arena.now) p.1.now })) }
    ensures below { IfSome result (λ p. AllBelow (length arena.now.items) p.1.now) }
{
    let k = macros.find(name)?;
    macro_of(arena, k)
}

// The place of a call with n arguments, unless its macro is there and takes that many.
fn wrong_of(arena: &Arena, macros: &Macros, at: usize, name: &[u8], n: usize) -> Option<usize>
    requires defined { AllBelow (length arena.now.items) macros.now.ids }
    ensures { result ≡ wrong_of_spec at n (macros_by arena.now macros.now name.now) }
{
    match macro_named(arena, macros, name) {
        Some((params, _)) => { if params.len() == n { None } else { Some(at) } }
        None => Some(at),
    }
}

// The place of the first call in this item that is wrong.
#[cycle(calls)]
#[tactic(auto, using(crate::proofs::Listing::heads_wrong, crate::proofs::Listing::counted))]
fn wrong_call(arena: &Arena, macros: &Macros, k: usize) -> Option<usize>
    requires stands { k < length arena.now.items }
    requires defined { AllBelow (length arena.now.items) macros.now.ids }
    ensures { result ≡ wrong_call_spec (macros_by arena.now macros.now) (item_of arena.now k) }
{
    match arena.item(k) {
        ItemNode::Text(_)
        | ItemNode::Comment
        | ItemNode::Output(_, _, _)
        | ItemNode::Set(_, _)
        | ItemNode::Break
        | ItemNode::Stop => None,
        ItemNode::If(branches, otherwise) => match wrong_branches(arena, macros, k, branches) {
            Some(at) => Some(at),
            None => wrong_calls(arena, macros, k, otherwise),
        },
        ItemNode::ForEach(_, _, body) | ItemNode::Define(_, _, body) => {
            wrong_calls(arena, macros, k, body)
        }
        ItemNode::MacroCall(at, name, ids) => {
            wrong_of(arena, macros, *at, name.as_str().as_bytes(), ids.len())
        }
    }
}

/// The place of the first call in these items that is wrong: whose macro is not there, or has another number of
/// parameters than it has arguments.
#[cycle(calls)]
pub fn wrong_calls(arena: &Arena, macros: &Macros, below: usize, items: &[usize]) -> Option<usize>
    requires within { below ≤ length arena.now.items }
    requires below { AllBelow below items.now }
    requires defined { AllBelow (length arena.now.items) macros.now.ids }
    ensures { result ≡ wrong_calls_spec (macros_by arena.now macros.now) (items_made (item_of arena.now) items.now) }
{
    let mut rest = items;
    while let [k, more @ ..] = rest {
        if let Some(at) = wrong_call(arena, macros, *k) {
            return Some(at);
        }
        rest = more;
    }
    None
}

#[cycle(calls)]
fn wrong_branches(
    arena: &Arena,
    macros: &Macros,
    below: usize,
    branches: &[Branch],
) -> Option<usize>
    requires within { below ≤ length arena.now.items }
    requires below { BranchesBelow (length arena.now.exprs) below branches.now }
    requires defined { AllBelow (length arena.now.items) macros.now.ids }
    ensures { result ≡ wrong_heads (macros_by arena.now macros.now) (item_of arena.now) branches.now }
{
    let mut rest = branches;
    while let [branch, more @ ..] = rest {
        if let Some(at) = wrong_calls(arena, macros, below, &branch.items) {
            return Some(at);
        }
        rest = more;
    }
    None
}
