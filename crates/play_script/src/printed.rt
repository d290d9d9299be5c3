// The lines that are printed.
ghost use Rattle.std.specs.Prelude.{◌≡◌, ◌<◌, ◌^◌, IfOk};
ghost use Rattle.admin_routes.specs.Asked.{fault_line as fault_line_of};
ghost use Rattle.play_script.specs.Printed.{reply_line as reply_line_of, line_fault as line_fault_of, refused_line as refused_line_of, full_line as full_line_of};

use crate::joining::join;
use api_model::ApiFault;
use book_rules::Reply;
use gw_base::{Memory, Text};
use play_session::SessionFull;
use record_fields::{encode, encode_field};
use script_records::LineFault;
use std::alloc::Global;

/// The line of a command's reply.
pub fn reply_line(alloc: Global, reply: &Reply) -> Result<Text, Memory>
    ensures { IfOk result (λ line. line ≡ reply_line_of reply.now) }
{
    match reply {
        Reply::Done => join(alloc, &["done", "\n"]),
        Reply::Deployed(number) => {
            let number = number.to_string(alloc)?;
            join(alloc, &["deployed ", number.as_str(), "\n"])
        }
        Reply::Usage(usage) => {
            let usage = usage.to_string(alloc)?;
            join(alloc, &[usage.as_str(), "\n"])
        }
        Reply::Refused(refusal) => {
            let name = refusal.to_string(alloc)?;
            join(alloc, &["refused ", name.as_str(), "\n"])
        }
        Reply::Store => join(alloc, &["store", "\n"]),
        // To an event that is no command.
        Reply::NoStage
        | Reply::Entered(_)
        | Reply::Remembered(_)
        | Reply::NotRemembered
        | Reply::Learned
        | Reply::Admitted { .. }
        | Reply::InvalidKey
        | Reply::Throttled { .. }
        | Reply::QuotaExceeded { .. }
        | Reply::Left { .. } => Ok(Text::of(String::new(alloc))),
    }
}

// A definition's fault and its place.
#[tactic(auto, unfolding(admin_routes::specs::Asked::fault_line))]
fn fault_line(alloc: Global, fault: &ApiFault) -> Result<Text, Memory>
    ensures { IfOk result (λ text. text ≡ fault_line_of fault.now) }
{
    let cause = fault.cause.to_string(alloc)?;
    let cause = encode(alloc, cause.as_str().as_bytes())?;
    let place = encode_field(alloc, fault.place.as_str().as_bytes())?;
    join(alloc, &[cause.as_str(), " at ", place.as_str()])
}

fn line_fault(alloc: Global, fault: LineFault) -> Result<Text, Memory>
    ensures { IfOk result (λ text. text ≡ line_fault_of fault) }
{
    match fault {
        LineFault::BadRecord => Ok(Text::of(String::from_str(alloc, "BadRecord at ~")?)),
        LineFault::Definition(fault) => fault_line(alloc, &fault),
    }
}

/// The line that ends a play at the line of this number.
#[tactic(auto, unfolding(crate::specs::Printed::refused_line))]
pub fn refused_line(alloc: Global, number: u64, fault: LineFault) -> Result<Text, Memory>
    ensures { IfOk result (λ line. line ≡ refused_line_of number fault) }
{
    let number = number.to_string(alloc)?;
    let fault = line_fault(alloc, fault)?;
    join(
        alloc,
        &["refused line ", number.as_str(), " ", fault.as_str(), "\n"],
    )
}

/// The line that ends a play where the session is full.
#[tactic(auto, unfolding(crate::specs::Printed::full_line))]
pub fn full_line(alloc: Global, full: SessionFull) -> Result<Text, Memory>
    ensures { IfOk result (λ line. line ≡ full_line_of full) }
{
    let entries = full.entries.to_string(alloc)?;
    let bytes = full.bytes.to_string(alloc)?;
    join(
        alloc,
        &["full ", entries.as_str(), " ", bytes.as_str(), "\n"],
    )
}
