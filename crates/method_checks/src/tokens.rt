// What a request hands to an authorizer.
use gw_base::Text;

/// The token of a request.
#[derive(Drop)]
pub enum Token {
    /// The method has no authorizer.
    None,
    /// The authorizer's header is absent or empty, or its pattern does not match the whole value.
    Bad,
    /// The value of that header.
    Taken(Text),
}
