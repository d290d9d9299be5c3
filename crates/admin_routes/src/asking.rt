// What the body of an administration request asks for.
ghost use Rattle.std.specs.Prelude.{◌≡◌, ◌≢◌, Ok, Err, IfOk, option_map};
ghost use Rattle.record_fields.specs.Coding.{text_of as text_in};
ghost use Rattle.api_model.specs.Definition.{document, stated, text};
ghost use Rattle.admin_routes.specs.Asked.{asked_by, fault_line as fault_line_of, no_record as no_record_of, put_by, stage_by, template_by};

use crate::plans::{ask_for_canary, ask_for_grant, ask_for_key, ask_for_plan};
use crate::routes::Route;
use api_model::{Api, ApiCause, ApiFault};
use book_rules::Command;
use call_facts::Vars;
use gw_base::{Bytes, Memory, Seq, Shared, Text};
use record_fields::{encode, encode_field, fields_in, pairs_in, small_number, text_of};
use std::alloc::Global;

/// A command, or why the body has none.
pub(crate) type Asked = Result<Command, Text>;

#[tactic(auto, unfolding(crate::specs::Asked::no_record))]
pub(crate) fn no_record(alloc: Global) -> Result<Text, Memory>
    ensures { IfOk result (λ why. why ≡ no_record_of) }
{
    Ok(Text::of(String::from_str(alloc, "BadRecord")?))
}

// A definition's fault and its place.
#[tactic(auto, unfolding(crate::specs::Asked::fault_line))]
fn fault_line(alloc: Global, fault: &ApiFault) -> Result<Text, Memory>
    ensures { IfOk result (λ line. line ≡ fault_line_of fault.now) }
{
    let cause = fault.cause.to_string(alloc)?;
    let cause = encode(alloc, cause.as_str().as_bytes())?;
    let place = encode_field(alloc, fault.place.as_str().as_bytes())?;
    let mut line = cause.into_inner();
    line.push_str(" at ")?;
    line.push_str(place.as_str())?;
    Ok(Text::of(line))
}

// A definition that was read is put.
fn put(alloc: Global, api: Text, definition: Api) -> Result<Command, Memory>
    ensures { IfOk result (λ command. command ≡ Command.PutApi api definition) }
{
    Ok(Command::PutApi {
        api,
        definition: Shared::new(alloc, definition)?,
    })
}

// Why none was read, unless memory was wanting.
fn refuse(alloc: Global, fault: ApiFault) -> Result<Asked, Memory>
    ensures { IfOk result (λ asked. (asked ≡ Err (fault_line_of fault)) × (fault.cause ≢ ApiCause.Memory)) }
{
    match fault.cause {
        ApiCause::Memory => Err(Memory),
        _ => Ok(Err(fault_line(alloc, &fault)?)),
    }
}

fn put_document(alloc: Global, api: Text, body: &[u8]) -> Result<Asked, Memory>
    ensures { IfOk result (λ asked. asked ≡ put_by api (document body.now) (stated (document body.now))) }
{
    match Api::read(alloc, body) {
        Ok(definition) => Ok(Ok(put(alloc, api, definition)?)),
        Err(fault) => refuse(alloc, fault),
    }
}

fn put_text(alloc: Global, api: Text, template: &str) -> Result<Asked, Memory>
    ensures { IfOk result (λ asked. asked ≡ put_by api (text template.now) (stated (text template.now))) }
{
    match Api::text(alloc, template) {
        Ok(definition) => Ok(Ok(put(alloc, api, definition)?)),
        Err(fault) => refuse(alloc, fault),
    }
}

// A template is text.
fn put_template(alloc: Global, api: Text, body: &[u8]) -> Result<Asked, Memory>
    ensures { IfOk result (λ asked. asked ≡ template_by api (text_in body.now)) }
{
    match text_of(alloc, body)? {
        Some(template) => put_text(alloc, api, template.as_str()),
        None => Ok(Err(no_record(alloc)?)),
    }
}

// The number of a deployment, and the variables behind it.
fn put_stage(
    alloc: Global,
    api: Text,
    stage: Text,
    fields: Option<Vec<Bytes>>,
) -> Result<Asked, Memory>
    ensures { IfOk result (λ asked. asked ≡ stage_by api stage (option_map (λ v. v.items) fields)) }
{
    let Some(fields) = fields else {
        return Ok(Err(no_record(alloc)?));
    };
    let [number, variables @ ..] = fields.as_slice() else {
        return Ok(Err(no_record(alloc)?));
    };
    let pairs = pairs_in(alloc, variables)?;
    match (small_number(number.as_slice()), pairs) {
        (Some(deployment), Some(pairs)) => {
            let variables = Vars {
                pairs: Seq::of(pairs),
            };
            Ok(Ok(Command::PutStage {
                api,
                stage,
                deployment,
                variables: Shared::new(alloc, variables)?,
            }))
        }
        _ => Ok(Err(no_record(alloc)?)),
    }
}

/// What a route asks for with this body; where the table of routes gives none, a body is ignored.
#[tactic(auto, unfolding(crate::specs::Asked::asked_by))]
pub fn ask_for(alloc: Global, route: Route, body: &[u8]) -> Result<Result<Command, Text>, Memory>
    ensures { IfOk result (λ asked. asked ≡ asked_by route body.now) }
{
    match route {
        Route::PutDocument { api } => put_document(alloc, api, body),
        Route::PutTemplate { api } => put_template(alloc, api, body),
        Route::Deploy { api } => Ok(Ok(Command::Deploy { api })),
        Route::PutStage { api, stage } => {
            let fields = fields_in(alloc, body)?;
            put_stage(alloc, api, stage, fields)
        }
        Route::PutCanary { api, stage } => ask_for_canary(alloc, api, stage, body),
        Route::Promote { api, stage } => Ok(Ok(Command::PromoteCanary { api, stage })),
        Route::Flush { api, stage } => Ok(Ok(Command::Flush { api, stage })),
        Route::PutKey { key } => ask_for_key(alloc, key, body),
        Route::PutPlan { plan } => ask_for_plan(alloc, plan, body),
        Route::JoinKey { plan, key } => Ok(Ok(Command::JoinKey { plan, key })),
        Route::Grant { plan, key } => ask_for_grant(alloc, plan, key, body),
        Route::Usage { plan, key } => Ok(Ok(Command::Usage { plan, key })),
        Route::Shutdown => Ok(Ok(Command::Shutdown)),
    }
}
