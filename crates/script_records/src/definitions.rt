// The definitions that a script puts.
ghost use Rattle.std.specs.Prelude.{◌≡◌, ◌≢◌, IfOk};
ghost use Rattle.api_model.specs.Definition.{document as document_of, text as text_of};
ghost use Rattle.script_records.specs.Definitions.{taken};

use crate::records::LineFault;
use api_model::{Api, ApiCause, ApiFault};
use gw_base::Memory;
use std::alloc::Global;

// Why none was read, unless memory was wanting.
fn refuse(fault: ApiFault) -> Result<LineFault, Memory>
    ensures { IfOk result (λ told. (told ≡ LineFault.Definition fault) × (fault.cause ≢ ApiCause.Memory)) }
{
    match fault.cause {
        ApiCause::Memory => Err(Memory),
        _ => Ok(LineFault::Definition(fault)),
    }
}

/// The definition of a document, where it is stated.
pub fn take_document(alloc: Global, document: &str) -> Result<Result<Api, LineFault>, Memory>
    ensures { IfOk result (λ read. read ≡ taken (document_of document.now)) }
{
    match Api::read(alloc, document.as_bytes()) {
        Ok(definition) => Ok(Ok(definition)),
        Err(fault) => Ok(Err(refuse(fault)?)),
    }
}

/// The definition of a template, where it is stated.
pub fn take_text(alloc: Global, template: &str) -> Result<Result<Api, LineFault>, Memory>
    ensures { IfOk result (λ read. read ≡ taken (text_of template.now)) }
{
    match Api::text(alloc, template) {
        Ok(definition) => Ok(Ok(definition)),
        Err(fault) => Ok(Err(refuse(fault)?)),
    }
}
