// When a template is rendered.
use call_facts::{Kind, Request, Target};

/// On which occasion a template is rendered.
#[derive(Clone, Copy)]
pub enum Occasion<'a> {
    /// At a call, for its request or for the reply: the request, and the parts of its target.
    Call(&'a Request, &'a Target),
    /// In a gateway response: its kind and its message. No request is seen there.
    Failure(Kind, &'a str),
}
