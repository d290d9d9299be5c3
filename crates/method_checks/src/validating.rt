// What a request for a method fails by.
ghost use Rattle.std.specs.Prelude.{◌≡◌, ◌<◌, length, IfOk, Ok};
ghost use Rattle.std.specs.Option.{option_map};
ghost use Rattle.json_subset.specs.Documents.{root_tree};
ghost use Rattle.json_subset.specs.Reading.{json};
ghost use Rattle.api_members.specs.Models.{schemas_in};
ghost use Rattle.api_model.specs.Definition.{parts_of};
ghost use Rattle.media_types.specs.MediaTypes.{media_type as media_type_of};
ghost use Rattle.method_checks.specs.Validating.{accepts as accepts_of, failed_body, failed_check, failed_parameters, model_for, refuses as refuses_of};

use crate::messages::missing_message;
use crate::missing::missing_names;
use api_model::{Api, Parameter};
use call_facts::{Kind, Request, Target};
use gw_base::{Memory, Text};
use json_subset::{Doc, Json, JsonFault};
use media_types::media_type;
use resource_tree::Found;
use schema_draft4::{Schema, Verdict};
use std::alloc::Global;

fn is_valid(alloc: Global, model: &Schema, document: &Doc) -> Result<bool, Memory>
    ensures { IfOk result (λ valid. valid ≡ accepts_of (schemas_in model.now) (Ok (root_tree document.now))) }
{
    match model.check(alloc, document)? {
        Verdict::Valid => Ok(true),
        Verdict::Invalid(_, _) => Ok(false),
    }
}

// Whether a body is a document that is valid by the model.
fn accepts(alloc: Global, model: &Schema, body: &[u8]) -> Result<bool, Memory>
    ensures { IfOk result (λ valid. valid ≡ accepts_of (schemas_in model.now) (json body.now)) }
{
    match Json::read(alloc, body) {
        Ok(document) => is_valid(alloc, model, &document),
        Err(JsonFault::Memory) => Err(Memory),
        Err(_) => Ok(false),
    }
}

fn refuses(alloc: Global, model: Option<&Schema>, body: &[u8]) -> Result<bool, Memory>
    ensures { IfOk result (λ refused. refused ≡ refuses_of (option_map (λ m. schemas_in m.now) model.entry) body.now) }
{
    match model {
        Some(model) => Ok(!accepts(alloc, model, body)?),
        None => Ok(false),
    }
}

// The model of a method for a media type, else that for all others.
fn find_model<'a>(api: &'a Api, method: u32, media: &str) -> Option<&'a Schema>
    requires { method < length (parts_of api.now).methods }
    ensures { option_map (λ m. schemas_in m.now) result ≡ model_for api.now method media.now }
{
    match api.model(method, media) {
        Some(model) => Some(model),
        None => api.model(method, "$default"),
    }
}

fn check_parameters(
    alloc: Global,
    asked: bool,
    parameters: &[Parameter],
    request: &Request,
    target: &Target,
    found: &Found,
) -> Result<Option<(Kind, Text)>, Memory>
    ensures { IfOk result (λ failed. failed ≡ failed_parameters asked request.now target.now found.now parameters.now) }
{
    if !asked {
        return Ok(None);
    }
    let names = missing_names(alloc, parameters, request, target, found)?;
    if names.is_empty() {
        return Ok(None);
    }
    let message = missing_message(alloc, &names)?;
    Ok(Some((Kind::BadRequestParameters, message)))
}

fn check_body(
    alloc: Global,
    asked: bool,
    api: &Api,
    method: u32,
    request: &Request,
) -> Result<Option<(Kind, Text)>, Memory>
    requires { method < length (parts_of api.now).methods }
    ensures { IfOk result (λ failed. failed ≡ failed_body asked api.now method request.now) }
{
    if !asked {
        return Ok(None);
    }
    let media = media_type(alloc, request.headers.as_slice())?;
    let model = find_model(api, method, media.as_str());
    if !refuses(alloc, model, request.body.as_slice())? {
        return Ok(None);
    }
    let message = String::from_str(alloc, Kind::BadRequestBody.message())?;
    Ok(Some((Kind::BadRequestBody, Text::of(message))))
}

/// What a request for this method fails by (API Gateway Developer Guide, "Request validation"), and the message that tells
/// it; `None` where nothing fails, and where the method has no validator.
///
/// Where the validator checks parameters, each that is required must have a value that is not blank; all that are missing
/// are named. Behind it, where the validator checks bodies and a model stands for the request's media type, or else for
/// `$default`, the body must be a JSON document that is valid by it.
///
/// # Errors
///
/// [`Memory`] where there is no memory for the message, the document or its verdict.
#[tactic(auto, unfolding(crate::specs::Validating::failed_check))]
pub fn validate(
    alloc: Global,
    api: &Api,
    method: u32,
    request: &Request,
    target: &Target,
    found: &Found,
) -> Result<Option<(Kind, Text)>, Memory>
    requires { method < length (parts_of api.now).methods }
    ensures { IfOk result (λ failed. failed ≡ failed_check api.now method request.now target.now found.now) }
{
    let Some(validator) = api.validator(method) else {
        return Ok(None);
    };
    let parameters = api.parameters(method);
    match check_parameters(
        alloc,
        validator.parameters,
        parameters,
        request,
        target,
        found,
    )? {
        Some(failed) => Ok(Some(failed)),
        None => check_body(alloc, validator.body, api, method, request),
    }
}
