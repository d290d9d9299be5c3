ghost use Rattle.std.specs.Prelude.{◌≡◌, ◌≢◌, ◌<◌, ◌↔◌, ℕ, List, [], length, Ok, Err, IfOk, OnOk, IfErr, IsOk, IsErrOf, MatchResult};
ghost use Rattle.vtl_grammar.specs.Tree.{Items};
ghost use Rattle.vtl_grammar.specs.Grammar.{IsTemplate};
ghost use Rattle.vtl_grammar.specs.Calls.{macros_in};
ghost use Rattle.vtl_grammar.specs.Templates.{limit, read_of, tree_of, whole, read_all as read_all_of};
ghost use Rattle.vtl_grammar.specs.Uses.{is_simple, is_plain};
ghost use Rattle.vtl_reader.specs.Read.{are_members as are_members_of, is_simple_node as is_simple_node_of, is_plain_node as is_plain_node_of, is_body as is_body_of};
ghost use Rattle.vtl_reader.specs.Nodes.{item_of, items_made, AllBelow};
ghost use Rattle.vtl_reader.specs.Macros.{macros_by};
ghost use Rattle.vtl_reader.specs.Views.{Gives};

use crate::arena::Arena;
use crate::blocks::{Around, Place};
use crate::error::{ReadError, placed};
use crate::items::read_items;
use crate::macros::{Macros, macros_of, wrong_calls};
use crate::nodes::{ItemNode, Step};
use gw_base::Text;
use std::alloc::Global;
use std::marker::Model;
use vtl_grammar::{Fault, TemplateFault};
use vtl_words::macros::macro_names;
use vtl_words::names::Names;

/// The most bytes that a template may have.
pub const LIMIT: usize = 307_200;

/// The most levels that may be open.
const LEVELS: u32 = 64;

/// A template that was read. A contract sees it as its source, which determines its tree.
#[derive(Drop)]
pub struct Template {
    source: Text,
    arena: Arena,
    macros: Macros,
    items: Vec<usize>,
}

impl Model for Template {
    ghost use Rattle.std.specs.Prelude.{ℕ, List};
    ghost use Rattle.vtl_reader.specs.Read.{IsRead};

    ghost Value = { List ℕ };

    ghost view = { λ t. t.source };

    ghost invariant = { λ t. IsRead t.source t.arena t.macros t.items.items };
}

// The items of a whole text whose macros have these names, or its first fault.
fn read_whole(alloc: Global, names: &Names, bytes: &[u8]) -> Result<(Arena, Vec<usize>), ReadError>
    ensures gives { Gives (λ p. items_made (item_of p.0) p.1.items) result (whole names.now 64 bytes.now) }
    ensures below { IfOk result (λ p. AllBelow (length p.0.items) p.1.items) }
{
    let mut arena = Arena::new(alloc);
    let params = Names::new(alloc);
    let around = Around {
        place: Place::Top,
        looping: false,
        params: &params,
    };
    match read_items(alloc, names, &mut arena, LEVELS, &around, Some(0), bytes) {
        Ok((items, _)) => Ok((arena, items)),
        Err(e) => Err(e),
    }
}

// The nodes of a text, its macros and the numbers of its items, or its first fault; calls are tested behind all else.
fn read_all(alloc: Global, bytes: &[u8]) -> Result<(Arena, Macros, Vec<usize>), ReadError>
    ensures gives { Gives (λ p. items_made (item_of p.0) p.2.items) result (read_all_of bytes.now) }
    ensures below { IfOk result (λ p. AllBelow (length p.0.items) p.2.items) }
    ensures macros { IfOk result (λ p. (x : List ℕ) → macros_by p.0 p.1 x ≡ macros_in (items_made (item_of p.0) p.2.items) x) }
    ensures defined { IfOk result (λ p. AllBelow (length p.0.items) p.1.ids) }
{
    let names = macro_names(alloc, bytes)?;
    let (arena, items) = match read_whole(alloc, &names, bytes) {
        Ok(p) => p,
        Err(e) => return Err(e),
    };
    let macros = macros_of(alloc, &arena, &items)?;
    match wrong_calls(&arena, &macros, arena.item_count(), &items) {
        Some(left) => Err(ReadError::Met(Fault::BadDirective(left))),
        None => Ok((arena, macros, items)),
    }
}

// Whether the steps are names alone.
#[tactic(auto, unfolding(crate::specs::Read::are_members))]
fn are_members(steps: &[Step]) -> bool
    ensures { result ≡ are_members_of steps.now }
{
    steps.iter().all(|step| matches!(step, Step::Member(_)))
}

// Text, or a reference without calls and indexes.
#[tactic(auto, unfolding(crate::specs::Read::is_simple_node))]
fn is_simple_node(node: &ItemNode) -> bool
    ensures { result ≡ is_simple_node_of node.now }
{
    match node {
        ItemNode::Text(_) => true,
        ItemNode::Output(_, _, steps) => are_members(steps),
        ItemNode::Comment
        | ItemNode::Set(_, _)
        | ItemNode::If(_, _)
        | ItemNode::ForEach(_, _, _)
        | ItemNode::Break
        | ItemNode::Stop
        | ItemNode::Define(_, _, _)
        | ItemNode::MacroCall(_, _, _) => false,
    }
}

// Text, or a reference to the body of the request.
fn is_plain_node(node: &ItemNode) -> bool
    ensures { result ≡ is_plain_node_of node.now }
{
    match node {
        ItemNode::Text(_) => true,
        ItemNode::Output(_, name, steps) => is_body(name.as_str().as_bytes(), steps),
        ItemNode::Comment
        | ItemNode::Set(_, _)
        | ItemNode::If(_, _)
        | ItemNode::ForEach(_, _, _)
        | ItemNode::Break
        | ItemNode::Stop
        | ItemNode::Define(_, _, _)
        | ItemNode::MacroCall(_, _, _) => false,
    }
}

/// Whether a reference of this name with these steps is `input.body`.
pub fn is_body(name: &[u8], steps: &[Step]) -> bool
    ensures { result ≡ is_body_of name.now steps.now }
{
    match steps {
        [Step::Member(step)] => name == b"input".as_slice() && step.as_str() == "body",
        _ => false,
    }
}

#[tactic(auto, using(crate::proofs::Simple::simple_made))]
fn are_simple(arena: &Arena, items: &[usize]) -> bool
    requires below { AllBelow (length arena.now.items) items.now }
    ensures { result ≡ is_simple (items_made (item_of arena.now) items.now) }
{
    let mut n = 0;
    while n < items.len() {
        if !is_simple_node(arena.item(items[n])) {
            return false;
        }
        n += 1;
    }
    true
}

#[tactic(auto, using(crate::proofs::Simple::plain_made))]
fn are_plain(arena: &Arena, items: &[usize]) -> bool
    requires below { AllBelow (length arena.now.items) items.now }
    ensures { result ≡ is_plain (items_made (item_of arena.now) items.now) }
{
    let mut rest = items;
    while let [k, more @ ..] = rest {
        if !is_plain_node(arena.item(*k)) {
            return false;
        }
        rest = more;
    }
    true
}

impl Template {
    /// Reads a template.
    ///
    /// # Errors
    ///
    /// The first fault of the text, as [`TemplateFault`] says: [`TemplateFault::TooLong`] before all else, and calls
    /// of macros that are wrong behind all else. [`TemplateFault::Memory`] where there is no memory.
    #[tactic(auto, unfolding(vtl_grammar::specs::Templates::read_of, vtl_grammar::specs::Templates::limit))]
    pub fn read(alloc: Global, text: &str) -> Result<Self, TemplateFault>
        ensures source { IfOk result (λ template. template ≡ text.now) }

        // What is read is a template, and what is a template is read, with its tree, but for want of memory.
        ensures found { OnOk result (IsTemplate text.now (tree_of text.now)) }
        ensures only { (is : Items) → IsTemplate text.now is → MatchResult result (λ template. tree_of template ≡ is) (λ fault. fault ≡ TemplateFault.Memory) }

        // The same by the function that reads; each fault is told just where it is.
        ensures read { OnOk result (IsOk (read_of text.now)) }
        ensures fault { IfErr result (λ fault. fault ≢ TemplateFault.Memory → read_of text.now ≡ Err fault) }
        ensures too_long { IsErrOf result TemplateFault.TooLong ↔ (limit < length text.now) }
    {
        if text.len() > LIMIT {
            return Err(TemplateFault::TooLong);
        }
        let (arena, macros, items) = match read_all(alloc, text.as_bytes()) {
            Ok(p) => p,
            Err(ReadError::Memory) => return Err(TemplateFault::Memory),
            Err(ReadError::Met(fault)) => return Err(placed(text.len(), fault)),
        };
        let source = Text::of(String::from_str(alloc, text)?);
        Ok(Template {
            source,
            arena,
            macros,
            items,
        })
    }

    /// The text that was read.
    pub fn source(&self) -> &str
        ensures { result.now ≡ self.now }
    {
        self.source.as_str()
    }

    /// The nodes of the template, and the numbers of its items.
    pub fn parts(&self) -> (&Arena, &[usize])
        ensures tree { items_made (item_of result.0.now) result.1.now ≡ tree_of self.now }
        ensures below { AllBelow (length result.0.now.items) result.1.now }
    {
        (&self.arena, self.items.as_slice())
    }

    /// The nodes of the template, its macros, and the numbers of its items.
    pub fn parts_with_macros(&self) -> (&Arena, &Macros, &[usize])
        ensures tree { items_made (item_of result.0.now) result.2.now ≡ tree_of self.now }
        ensures macros { (x : List ℕ) → macros_by result.0.now result.1.now x ≡ macros_in (tree_of self.now) x }
        ensures below { AllBelow (length result.0.now.items) result.2.now }
        ensures defined { AllBelow (length result.0.now.items) result.1.now.ids }
    {
        (&self.arena, &self.macros, self.items.as_slice())
    }

    /// Whether it is only text and references without calls and indexes.
    pub fn simple(&self) -> bool
        ensures { result ≡ is_simple (tree_of self.now) }
    {
        let (arena, items) = self.parts();
        are_simple(arena, items)
    }

    /// Whether it is only text and references to the body of the request.
    pub fn plain(&self) -> bool
        ensures { result ≡ is_plain (tree_of self.now) }
    {
        let (arena, items) = self.parts();
        are_plain(arena, items)
    }
}
