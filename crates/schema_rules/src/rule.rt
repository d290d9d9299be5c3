// Schemas as numbered nodes.
use schema_keywords::Test;
use std::collections::BTreeSet;

/// What the parts must meet that no other keyword names.
#[derive(Clone, Copy, Drop)]
pub enum Others {
    /// `false`
    Refused,
    /// The schema of this number.
    By(usize),
}

/// Names, in their order and for a look-up.
#[derive(Drop)]
pub struct Names {
    pub list: Vec<String>,
    pub index: BTreeSet<String>,
}

/// One keyword with its value; schemas are named by their numbers.
pub enum Rule {
    /// A keyword that looks at the value alone.
    Test(Test),
    /// `properties`: each name with its schema.
    Properties(Vec<(String, usize)>),
    /// `additionalProperties`, and the names that `properties` has.
    AdditionalProperties(Names, Others),
    /// `items`, one schema for every item.
    Items(usize),
    /// `items`, a schema for each item by its place.
    ItemsEach(Vec<usize>),
    /// `additionalItems`, and how many items have a schema by their place.
    AdditionalItems(usize, Others),
    AllOf(Vec<usize>),
    AnyOf(Vec<usize>),
    OneOf(Vec<usize>),
    Not(usize),
    /// `definitions`, which asks nothing of a value.
    Defines(Vec<(String, usize)>),
    /// `$ref` to the target of this number.
    Refer(usize),
}

impl Drop for Rule {
    fn drop(self) {
        match self {
            Rule::Test(_) => {}
            Rule::Properties(_) => {}
            Rule::AdditionalProperties(_, _) => {}
            Rule::Items(_) => {}
            Rule::ItemsEach(_) => {}
            Rule::AdditionalItems(_, _) => {}
            Rule::AllOf(_) => {}
            Rule::AnyOf(_) => {}
            Rule::OneOf(_) => {}
            Rule::Not(_) => {}
            Rule::Defines(_) => {}
            Rule::Refer(_) => {}
        }
    }
}

/// A schema: its keywords in written order, and its rank in an order in which each schema comes behind all that it
/// names for the same value.
#[derive(Drop)]
pub struct Node {
    pub rules: Vec<Rule>,
    pub rank: usize,
}
