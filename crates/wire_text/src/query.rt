// Queries.
ghost use Rattle.std.specs.Prelude.{◌≡◌, IfOk};
ghost use Rattle.wire_text.specs.Queries.{query_of, with_query_of};

use form_urlencoded::Serializer;
use gw_base::{Memory, Text};
use std::alloc::Global;

/// The pairs as a query (application/x-www-form-urlencoded; URL Standard, section 5.2).
pub fn query_text(alloc: Global, pairs: &[(Text, Text)]) -> Result<Text, Memory>
    ensures { IfOk result (λ text. text ≡ query_of pairs.now) }
{
    let mut query = Serializer::new(String::new(alloc));
    for pair in pairs {
        query.append_pair(pair.0.as_str(), pair.1.as_str())?;
    }
    Ok(Text::of(query.finish()))
}

/// The path, with `?` and the query where that is not empty.
pub fn with_query(alloc: Global, path: &str, query: &str) -> Result<Text, Memory>
    ensures { IfOk result (λ text. text ≡ with_query_of path.now query.now) }
{
    let mut text = String::from_str(alloc, path)?;
    if !query.is_empty() {
        text.push_str("?")?;
        text.push_str(query)?;
    }
    Ok(Text::of(text))
}
