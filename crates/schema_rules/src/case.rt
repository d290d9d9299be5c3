// What is judged.
use crate::rule::Node;
use json_subset::Doc;
use json_values::Value;

/// Schemas, a document and its values.
#[derive(Clone, Copy, Drop)]
pub struct Case<'a> {
    /// The schemas by their numbers.
    pub nodes: &'a [Node],
    /// The numbers of what a `$ref` can name.
    pub targets: &'a [usize],
    pub doc: &'a Doc,
    /// The document's values by their numbers.
    pub values: &'a [Value],
}
