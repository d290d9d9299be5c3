// A value, its parts named by their numbers.
use crate::amount::Amount;
use json_subset::NodeId;
use std::collections::BTreeMap;

/// What a number is (RFC 8259, section 6).
#[derive(Clone, Copy, Drop)]
pub enum Number {
    /// Neither fraction nor exponent, and in the range of 64 signed bits.
    Whole(i64),
    /// A fraction and no exponent, and how large it is.
    Decimal(Amount),
    /// Any other number.
    Wide,
}

/// The members of an object: in their order, and by name.
#[derive(Drop)]
pub struct Members {
    pub list: Vec<(String, usize)>,
    pub index: BTreeMap<String, usize>,
}

/// What a value is; its parts are named by their numbers.
#[derive(Drop)]
pub enum Form {
    Null,
    Bool(bool),
    /// What the number is, and its source text.
    Number(Number, String),
    /// The decoded text.
    Text(String),
    List(Vec<usize>),
    Object(Members),
}

/// A value, and the part of the document that it was read from.
#[derive(Drop)]
pub struct Value {
    pub id: NodeId,
    pub form: Form,
}
