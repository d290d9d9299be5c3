// The name of what is called.
ghost use Rattle.std.specs.Prelude.{◌≡◌, IfOk};
ghost use Rattle.authorizer_call.specs.Names.{arn_of, behind_slash as behind_slash_of};

use call_facts::Target;
use gw_base::{Memory, Text};
use std::alloc::Global;

// What stands behind the `/` at the front of a path.
fn behind_slash(path: &str) -> &str
    ensures { result.now ≡ behind_slash_of path.now }
{
    match path.strip_prefix('/') {
        Some(rest) => rest,
        None => path,
    }
}

/// The name of a call, of which policies speak: `arn:aws:execute-api:local:000000000000:API/STAGE/METHOD/PATH`, PATH being the
/// path behind the stage as it is written, without its first `/`.
pub fn arn(alloc: Global, target: &Target, method: &str) -> Result<Text, Memory>
    ensures { IfOk result (λ name. name ≡ arn_of target.now method.now) }
{
    let mut name = String::from_str(alloc, "arn:aws:execute-api:local:000000000000:")?;
    name.push_str(target.api.as_str())?;
    name.push_str("/")?;
    name.push_str(target.stage.as_str())?;
    name.push_str("/")?;
    name.push_str(method)?;
    name.push_str("/")?;
    name.push_str(behind_slash(target.path.as_str()))?;
    Ok(Text::of(name))
}
