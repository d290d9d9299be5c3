// A backend's reply, and the texts that paths select of its body.
ghost use Rattle.std.specs.Prelude.{◌≡◌, IfOk};
ghost use Rattle.integration_flow.specs.Bodies.{text_at};

use crate::bodies::ReadBody;
use call_facts::WireReply;
use gw_base::{Memory, Text};
use jsonpath_core::Path;
use std::alloc::Global;
use std::marker::Model;

/// A backend's reply, with the document that its body is.
#[derive(Drop)]
pub struct ReadReply<'a> {
    reply: &'a WireReply,
    body: ReadBody<'a>,
}

impl<'a> Model for ReadReply<'a> {
    ghost use Rattle.std.specs.Prelude.{◌≡◌};
    ghost use Rattle.call_facts.specs.declared.request.WireReply.{WireReply as ReplyOf};

    ghost Value = { ReplyOf };

    ghost view = { λ r. r.reply.now };

    ghost invariant = { λ r. r.body ≡ r.reply.now.body };
}

impl<'a> ReadReply<'a> {
    /// Reads the document that the reply's body is.
    pub fn new(alloc: Global, reply: &'a WireReply) -> Result<Self, Memory>
        ensures { IfOk result (λ made. made ≡ reply.now) }
    {
        let body = ReadBody::new(alloc, reply.body.as_slice())?;
        Ok(ReadReply { reply, body })
    }

    /// The reply.
    pub fn reply(&self) -> &'a WireReply
        ensures { result.now ≡ self.now }
    {
        self.reply
    }

    /// The text that a path selects of the body.
    pub fn text_at(&self, alloc: Global, path: &Path) -> Result<Option<Text>, Memory>
        ensures { IfOk result (λ made. made ≡ text_at self.now.body path.now) }
    {
        self.body.text_at(alloc, path)
    }
}
