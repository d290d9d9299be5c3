// The nodes of a template.
ghost use Rattle.std.specs.Prelude.{◌≡◌, ◌<◌, [], length, IfOk, OnOk};
ghost use Rattle.vtl_reader.specs.Nodes.{expr_of, item_of, made, item_made, IsBelow, ItemIsBelow, Keeps};

use crate::nodes::{ExprNode, ItemNode};
use std::alloc::{AllocError, Global};
use std::marker::Model;

/// The expressions and items of a template, by number. The parts of each stand before it.
#[derive(Drop)]
pub struct Arena {
    exprs: Vec<ExprNode>,
    items: Vec<ItemNode>,
}

impl Model for Arena {
    ghost use Rattle.vtl_reader.specs.Nodes.{Nodes, AreOrdered};

    ghost Value = { Nodes };

    ghost view = { λ a. record { exprs = a.exprs.items; items = a.items.items } };

    ghost invariant = { λ a. AreOrdered (record { exprs = a.exprs.items; items = a.items.items }) };
}

impl Arena {
    /// No nodes.
    pub fn new(alloc: Global) -> Self
        ensures { result ≡ record { exprs = []; items = [] } }
    {
        Arena {
            exprs: Vec::new(alloc),
            items: Vec::new(alloc),
        }
    }

    /// One more expression, whose parts are there.
    pub fn add_expr(&mut self, node: ExprNode) -> Result<usize, AllocError>
        requires below { IsBelow (length self.old.exprs) node }
        ensures kept { OnOk result (Keeps self.old self.new) }
        ensures stands { IfOk result (λ k. k < length self.new.exprs) }
        ensures tree { IfOk result (λ k. expr_of self.new.exprs k ≡ made (expr_of self.old.exprs) node) }
    {
        let k = self.exprs.len();
        self.exprs.push(node)?;
        Ok(k)
    }

    /// One more item, whose parts are there.
    pub fn add_item(&mut self, node: ItemNode) -> Result<usize, AllocError>
        requires below { ItemIsBelow (length self.old.exprs) (length self.old.items) node }
        ensures kept { OnOk result (Keeps self.old self.new) }
        ensures stands { IfOk result (λ k. k < length self.new.items) }
        ensures tree { IfOk result (λ k. item_of self.new k ≡ item_made (expr_of self.old.exprs) (item_of self.old) node) }
    {
        let k = self.items.len();
        self.items.push(node)?;
        Ok(k)
    }

    /// How many expressions there are.
    pub fn expr_count(&self) -> usize
        ensures { result ≡ length self.now.exprs }
    {
        self.exprs.len()
    }

    /// How many items there are.
    pub fn item_count(&self) -> usize
        ensures { result ≡ length self.now.items }
    {
        self.items.len()
    }

    /// The expression with this number; its parts have lesser numbers.
    pub fn expr(&self, k: usize) -> &ExprNode
        requires stands { k < length self.now.exprs }
        ensures opened { expr_of self.now.exprs k ≡ made (expr_of self.now.exprs) result.now }
        ensures below { IsBelow k result.now }
    {
        &self.exprs[k]
    }

    /// The item with this number; the items inside have lesser numbers.
    pub fn item(&self, k: usize) -> &ItemNode
        requires stands { k < length self.now.items }
        ensures opened { item_of self.now k ≡ item_made (expr_of self.now.exprs) (item_of self.now) result.now }
        ensures below { ItemIsBelow (length self.now.exprs) k result.now }
    {
        &self.items[k]
    }
}
