// The reader that callers see.
ghost use Rattle.std.specs.Prelude.{◌≡◌, IfErr, IfOk, Ok};
ghost use Rattle.json_subset.specs.Documents.{root_tree};
ghost use Rattle.json_subset.specs.Grammar.{Spells};
ghost use Rattle.json_subset.specs.Prefixes.{IsPlaceOf};
ghost use Rattle.json_subset.specs.Reading.{json};
ghost use Rattle.json_subset.specs.Tree.{Tree};
ghost use Rattle.json_subset.specs.Views.{Gives};

use crate::doc::Doc;
use crate::fault::JsonFault;
use crate::reader::read_document;
use std::alloc::Global;

/// The reader of JSON documents.
pub struct Json;

impl Json {
    /// The document that these bytes spell, or the first fault against it: a syntax fault at the least place
    /// such that no document begins with the bytes up to and including it, a limit where it is first passed.
    pub fn read(alloc: Global, bytes: &[u8]) -> Result<Doc, JsonFault>
        ensures gives { Gives root_tree result (json bytes.now) }
        ensures spelled { IfOk result (λ d. Spells bytes.now (root_tree d)) }
        ensures only { (t : Tree) → Spells bytes.now t → Gives root_tree result (Ok t) }
        ensures places { IfErr result (λ e. IsPlaceOf bytes.now e) }
        ensures text { IfOk result (λ d. d.text ≡ bytes.now) }
    {
        match std::str::from_utf8(bytes) {
            Err(e) => Err(JsonFault::NotUtf8(e.valid_up_to())),
            Ok(text) => {
                let (nodes, root) = read_document(alloc, bytes)?;
                let text = String::from_str(alloc, text)?;
                Ok(Doc::of(text, nodes, root))
            }
        }
    }
}
