// What stands around items, and what ends them.
use crate::nodes::Branch;
use vtl_words::names::Names;

/// What a run of items is the inside of.
#[derive(Clone, Copy, Debug, PartialEq, Eq)]
pub enum Place {
    /// The whole text.
    Top,
    /// A branch of an `#if`, which `#elseif`, `#else` or `#end` ends.
    Branch,
    /// Another block, which `#end` alone ends.
    Body,
}

/// What stands around items: what they are the inside of, whether a `#foreach` of the same body is, and the parameters
/// of the macro around.
#[derive(Clone, Copy)]
pub struct Around<'p> {
    pub place: Place,
    pub looping: bool,
    pub params: &'p Names,
}

/// What ends a run of items, with the line and the bytes behind it.
#[derive(Drop)]
pub enum Stop<'a> {
    /// The end of the text.
    Finish,
    Else(Option<usize>, &'a [u8]),
    /// With its condition.
    ElseIf(usize, Option<usize>, &'a [u8]),
    End(Option<usize>, &'a [u8]),
}

/// What one turn reads.
#[derive(Drop)]
pub enum ItemTurn<'a> {
    /// An item, with the line and the bytes behind it.
    Item(usize, Option<usize>, &'a [u8]),
    End(Stop<'a>),
}

/// A branch of an `#if`.
#[derive(Drop)]
pub enum BranchTurn<'a> {
    /// The last, what stands behind `#else`, and the line and the bytes behind `#end`.
    Last(Branch, Vec<usize>, Option<usize>, &'a [u8]),
    /// One behind which stands another, with its condition, and the line and the bytes behind it.
    More(Branch, usize, Option<usize>, &'a [u8]),
}
