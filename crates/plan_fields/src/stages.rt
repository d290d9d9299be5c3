// The stages under which a plan's keys may call.
ghost use Rattle.std.specs.Prelude.{◌≡◌, option_map, IfOk};
ghost use Rattle.plan_fields.specs.Fields.{plan_stages_of, stage_of};

use crate::parting::parted_at;
use gw_base::{Bytes, Memory, Text};
use record_fields::text_of;
use std::alloc::Global;

// A field `API/STAGE`, both of which are texts.
fn stage_in(alloc: Global, field: &[u8]) -> Result<Option<(Text, Text)>, Memory>
    ensures { IfOk result (λ stage. stage ≡ stage_of field.now) }
{
    let Some((api, stage)) = parted_at(field, b'/') else {
        return Ok(None);
    };
    let Some(api) = text_of(alloc, api)? else {
        return Ok(None);
    };
    let Some(stage) = text_of(alloc, stage)? else {
        return Ok(None);
    };
    Ok(Some((api, stage)))
}

/// The APIs and stages of fields `API/STAGE`, where each has its form.
pub fn plan_stages_in(alloc: Global, fields: &[Bytes]) -> Result<Option<Vec<(Text, Text)>>, Memory>
    ensures { IfOk result (λ stages. option_map (λ v. v.items) stages ≡ plan_stages_of fields.now) }
{
    let mut stages = Vec::new(alloc);
    for field in fields {
        let Some(stage) = stage_in(alloc, field.as_slice())? else {
            return Ok(None);
        };
        stages.push(stage)?;
    }
    Ok(Some(stages))
}
