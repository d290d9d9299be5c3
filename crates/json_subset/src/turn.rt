// The brackets that stand open while a document is read, and what was read in each.
use std::collections::BTreeMap;

/// The members of an open object: those before, the places of their names and of the one below, and
/// the name of the next.
#[derive(Drop)]
pub struct Members {
    pub before: Vec<(String, usize)>,
    pub names: BTreeMap<String, usize>,
    pub name: String,
}

/// What was read inside an open bracket.
#[derive(Drop)]
pub enum Parts {
    Items(Vec<usize>),
    Members(Members),
}

/// An open bracket, from its byte on.
#[derive(Drop)]
pub struct Open<'a> {
    pub from: &'a [u8],
    pub parts: Parts,
}

/// What a turn of the reader came to: a bracket that opened or goes on, before its next part, or a
/// whole value, before what follows it.
#[derive(Drop)]
pub enum Turn<'a> {
    Goes(Open<'a>, &'a [u8]),
    Whole(usize, &'a [u8]),
}
