// What a schema says of a value.
use json_subset::NodeId;
use schema_keywords::Keyword;

/// What a schema says of a value.
#[derive(Clone, Copy, Drop)]
pub enum Verdict {
    Valid,
    /// The first failing part of the document, and its keyword.
    Invalid(NodeId, Keyword),
}
