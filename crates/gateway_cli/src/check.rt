// What the command `check` prints of its file.
ghost use Rattle.std.specs.Prelude.{◌≡◌, true, Ok, Err, IfOk};
ghost use Rattle.api_model.specs.Definition.{document as document_of, parts_of, stated};
ghost use Rattle.gateway_cli.specs.Check.{accepted as accepted_of, checked as checked_of, checked_within as checked_within_of, refused as refused_of};
ghost use Rattle.play_script.specs.Play.{is_command_status};

use crate::shown::{Shown, too_long};
use api_model::{Api, ApiCause, ApiFault};
use gw_base::{Bytes, Memory};
use play_script::join;
use record_fields::{encode, encode_field};
use std::alloc::Global;

#[tactic(auto, unfolding(crate::specs::Check::accepted))]
fn accept(alloc: Global, api: &Api) -> Result<Shown, Memory>
    ensures output { IfOk result (λ shown. accepted_of (parts_of api.now) ≡ record { text = shown.text; status = shown.status }) }
    ensures known { IfOk result (λ shown. is_command_status shown.status ≡ true) }
{
    let resources = api.resources().to_string(alloc)?;
    let methods = api.methods().to_string(alloc)?;
    let models = api.models().to_string(alloc)?;
    Ok(Shown {
        text: join(
            alloc,
            &[
                "ok resources=",
                resources.as_str(),
                " methods=",
                methods.as_str(),
                " models=",
                models.as_str(),
                "\n",
            ],
        )?,
        status: 0,
    })
}

#[tactic(auto, unfolding(crate::specs::Check::refused))]
fn refuse(alloc: Global, fault: &ApiFault) -> Result<Shown, Memory>
    ensures output { IfOk result (λ shown. refused_of fault.now ≡ record { text = shown.text; status = shown.status }) }
    ensures known { IfOk result (λ shown. is_command_status shown.status ≡ true) }
{
    let cause = fault.cause.to_string(alloc)?;
    let cause = encode(alloc, cause.as_str().as_bytes())?;
    let place = encode_field(alloc, fault.place.as_str().as_bytes())?;
    Ok(Shown {
        text: join(
            alloc,
            &["refused ", cause.as_str(), " at ", place.as_str(), "\n"],
        )?,
        status: 1,
    })
}

// A document within its limit.
fn check(alloc: Global, document: &[u8]) -> Result<Shown, Memory>
    ensures output { IfOk result (λ shown. checked_of document.now ≡ record { text = shown.text; status = shown.status }) }
    ensures known { IfOk result (λ shown. is_command_status shown.status ≡ true) }
{
    match Api::read(alloc, document) {
        Ok(api) => accept(alloc, &api),
        Err(
            ApiFault {
                cause: ApiCause::Memory,
                ..
            },
        ) => Err(Memory),
        Err(fault) => refuse(alloc, &fault),
    }
}

/// What is printed of a document's bytes, where none stand for bytes beyond the limit.
pub fn check_within(alloc: Global, document: &Option<Bytes>) -> Result<Shown, Memory>
    ensures output { IfOk result (λ shown. checked_within_of document.now ≡ record { text = shown.text; status = shown.status }) }
    ensures known { IfOk result (λ shown. is_command_status shown.status ≡ true) }
{
    match document {
        Some(document) => check(alloc, document.as_slice()),
        None => too_long(alloc),
    }
}
