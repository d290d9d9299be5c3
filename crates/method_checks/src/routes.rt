// What is found of a request's path and verb.
use resource_tree::Found;

/// Where a request goes.
#[derive(Drop)]
pub enum Route {
    /// The API is a text, which answers each request.
    TextApi,
    /// The method of this number, on the resource that was found.
    Hit(Found, u32),
    /// No resource has the path, or the resource has no method for the verb.
    Missing,
}
